//! Submissions.
ghost use Rattle.std.specs.Prelude.{◌≡◌, ◌≤◌, ◌↔◌, ℕ, IfErr, IfOk, IfNone, IfSome, IsTrue, MatchOption, None, OnOk, Some};
ghost use Rattle.hm_data.specs.declared.entry.Entry.TheVariants as entry_is;
ghost use Rattle.hm_model.specs.Base.{IsBegun};
ghost use Rattle.hm_model.specs.Requests.{StaysWithin, wrong_in as wrong};
ghost use Rattle.hm_model.specs.Rules.{Allowed};
ghost use Rattle.hm_model.specs.Tree.{drawn as ids_drawn};
ghost use Rattle.hm_refusals.specs.Submissions.{DrewTooMany, IsAgainst, IsMadeFor, IsNew, IsRepeated};

use hm_catalog::wrong_in;
use hm_data::{Args, Request};
use hm_hall::Halt;
use hm_names::{Nonce, Pid, Same, TableName};
use hm_records::{Records, new_ids, table_of_request};
use thiserror::Error;

// The greatest number of region ids that may be drawn for a table.
const MOST_IDS: u64 = 4096;

/// Why a submission is refused.
#[derive(Clone, Copy, Debug, PartialEq, Eq, Error)]
pub enum Refused {
    /// Another request was submitted under its nonce, which made this procedure.
    #[error("the nonce was used for procedure {0:?}")]
    NonceClash(Pid),
    /// The lowest number of what is wrong with the request by itself: 1, it drops a namespace that is there from the start; 2, a
    /// split key is empty or isn't greater than the one before; 3, there are more than 255 of them; 4, it doesn't merge two to
    /// ten different regions of one table; 5, a region is split at the empty key.
    #[error("bad arguments {0}")]
    BadArgs(u8),
    /// So many region ids were drawn for the table that the new ones would pass 4,096.
    #[error("{0} region ids were drawn")]
    TooManyRegions(u64),
    /// The journal has this many bytes: it has reached its soft mark, or the entry would pass the hard mark.
    #[error("the journal is full at {0} bytes")]
    JournalFull(u64),
    /// An earlier call halted the journal.
    #[error("halted")]
    Halted(Halt),
    /// The log failed in this call. The submission may be in the journal or not.
    #[error("the log failed")]
    LogFault,
    /// Memory ran out.
    #[error("out of memory")]
    Memory,
}

// What is wrong with a request by itself.
fn check_request(request: &Request) -> Result<(), Refused>
    ensures ok { OnOk result (wrong request.now ≡ None) }
    ensures wrong { IfErr result (λ why. (number : ℕ) × (why ≡ Refused.BadArgs number) × (wrong request.now ≡ Some number)) }
{
    match wrong_in(request) {
        Some(number) => Err(Refused::BadArgs(number as u8)),
        None => Ok(()),
    }
}

// Whether who is shown by a number was made for this request.
fn is_made_for(records: &Records, pid: Pid, request: &Request) -> bool
    ensures { IsTrue result ↔ IsMadeFor records.now.past pid.0 request.now }
{
    let Some(found) = records.shown(pid) else {
        return false;
    };
    match &found.args {
        Args::Root {
            request: asked,
            first: _,
        } => asked.same(request),
        _ => false,
    }
}

// How many region ids were drawn for a table: no more than the limit.
fn drawn(records: &Records, table: &TableName) -> u64
    ensures drawn { result ≡ ids_drawn records.now.past table.now }
    ensures few { result ≤ 4096 }
{
    let _legal = records.procedures();
    records.drawn(table)
}

// How many were drawn for the table of a request, where those that it draws don't fit any more.
fn drew_too_many(records: &Records, request: &Request) -> Option<u64>
    ensures { MatchOption result (StaysWithin records.now.past request.now) (DrewTooMany records.now.past request.now) }
{
    let table = table_of_request(request)?;
    let drawn = drawn(records, table);
    if new_ids(request) <= MOST_IDS - drawn {
        return None;
    }
    Some(drawn)
}

/// Judges a submission by what the journal says: first what is wrong with the request by itself, then its nonce, then the region
/// ids that it draws. A nonce that was used for the same request gives the procedure that it made.
pub fn judge_submission(
    records: &Records,
    nonce: &Nonce,
    request: &Request,
) -> Result<Option<Pid>, Refused>
    requires begun { IsBegun records.now.past }
    ensures refused { IfErr result (IsAgainst records.now.past nonce.now request.now) }
    ensures repeated { IfOk result (λ pid. IfSome pid (λ pid. IsRepeated records.now.past nonce.now request.now pid.0)) }
    ensures new { IfOk result (λ pid. IfNone pid (IsNew records.now.past nonce.now request.now)) }
    ensures allowed { IfOk result (λ pid. IfNone pid (Allowed records.now.past (entry_is.Submit nonce.now request.now))) }
{
    check_request(request)?;
    if let Some(pid) = records.by_nonce(nonce) {
        if !is_made_for(records, pid, request) {
            return Err(Refused::NonceClash(pid));
        }
        return Ok(Some(pid));
    }
    match drew_too_many(records, request) {
        Some(drawn) => Err(Refused::TooManyRegions(drawn)),
        None => Ok(None),
    }
}
