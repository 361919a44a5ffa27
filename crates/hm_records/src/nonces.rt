//! The procedures that were made under nonces.
ghost use Rattle.std.specs.Prelude.{◌≡◌, ◌+◌, ◌≤◌, ◌∷◌};
ghost use Rattle.hm_records.specs.Parts.{nonce_used as used_by, part_nonce_used as used_by_part, used_for as used_under};
ghost use Rattle.hm_records.specs.Records.{AreByNonce};

use hm_data::{Entry, Part};
use hm_index::Index;
use hm_names::{Nonce, Pid};
use hm_procedures::Procedures;

// A nonce with its root: one whose number is 0 is none.
fn used_for(nonce: Nonce, root: Pid) -> Option<(Nonce, Pid)>
    ensures { result ≡ used_under nonce root }
{
    if nonce.number == 0 {
        return None;
    }
    Some((nonce, root))
}

// The nonce of a part's root, with that root.
fn part_nonce(part: &Part) -> Option<(Nonce, Pid)>
    ensures { result ≡ used_by_part part.now }
{
    match part {
        Part::Root {
            pid,
            nonce,
            args: _,
            cause: _,
        } => used_for(*nonce, *pid),
        _ => None,
    }
}

// The nonce that an entry uses, with the root that was made under it.
pub(crate) fn nonce_used(past: &Procedures, entry: &Entry) -> Option<(Nonce, Pid)>
    ensures { result ≡ used_by past.now.past entry.now }
{
    match entry {
        Entry::Submit { nonce, request: _ } => used_for(*nonce, Pid(past.last_pid() + 1)),
        Entry::Base { part } => part_nonce(part),
        _ => None,
    }
}

// Takes in the nonce that an entry uses.
pub(crate) fn add_nonce(
    nonces: &mut Index<Nonce, Pid>,
    past: &Procedures,
    entry: &Entry,
    nonce: Option<(Nonce, Pid)>,
)
    requires nonces { AreByNonce past.now.past nonces.old.pairs }
    requires nonce { nonce ≡ used_by past.now.past entry.now }
    requires room { 1 ≤ nonces.old.spare }
    ensures nonces { AreByNonce (entry.now ∷ past.now.past) nonces.new.pairs }
    ensures spare { nonces.old.spare ≤ nonces.new.spare + 1 }
    ensures room { nonces.new.room ≡ nonces.old.room }
{
    let _past = past;
    let _entry = entry;
    if let Some((nonce, root)) = nonce {
        nonces.set(nonce, root);
    }
}
