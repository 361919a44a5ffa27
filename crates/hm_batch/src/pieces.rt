//! The runs of pieces, and what is noted of each.
ghost use Rattle.std.specs.Prelude.{◌≡◌, ◌⊎◌, ◌+◌, ◌-◌, ◌*◌, ◌^◌, ◌≤◌, ◌<◌, ◌++◌, ◌∷◌, [], List, ℕ, length, take, vec_len, vec_capacity, false, true, IfOk, OnOk, OnErr};
ghost use Rattle.hm_ports.specs.Faults.{Rose};
ghost use Rattle.hm_disk.specs.Disk.{LeavesOnly, RisesBy};
ghost use Rattle.hm_log.specs.Format.{Reads};
ghost use Rattle.hm_batch.specs.Flushing.{ReadsWithFirst, BreaksOff};
ghost use Rattle.hm_batch.specs.Pieces.{in_order};
ghost use Rattle.hm_batch.specs.View.{AreLaid, Grows};

use hm_disk::Disk;
use hm_log::Log;
use hm_ports::Failed;

// How many bytes the run of a piece has at most: those of the longest frame, its length and a gate.
pub(crate) const MOST: u64 = 65_541;

// What is noted of a piece: how many bytes its run has, and how many frames.
#[derive(Clone, Copy)]
pub(crate) struct Piece {
    pub(crate) bytes: u64,
    pub(crate) frames: u64,
}

// Takes the last piece off the notes and opens the gate at its end, where it has room for so many bytes more.
// Else it leaves all as it is, and gives a piece without a frame.
pub(crate) fn growing(notes: &mut Vec<Piece>, bytes: &mut Vec<u8>, size: u64) -> Piece
    requires size { size ≤ 65541 }
    requires whole { (piece : Piece) (front : List Piece) →
        notes.old.items ≡ front ++ piece ∷ [] → 1 ≤ vec_len bytes.old }
    requires room { vec_len notes.old < vec_capacity notes.old }
    ensures grows { Grows size result notes.old.items notes.new.items bytes.old.items bytes.new.items }
    ensures len { vec_len bytes.new ≡ vec_len bytes.old }
    ensures notes { vec_capacity notes.new ≡ vec_capacity notes.old }
    ensures bytes { vec_capacity bytes.new ≡ vec_capacity bytes.old }
{
    match notes.pop() {
        Some(last) if last.bytes <= MOST - size => {
            bytes.pop();
            bytes.push_reserved(b'+');
            last
        }
        Some(last) => {
            notes.push_reserved(last);
            Piece {
                bytes: 0,
                frames: 0,
            }
        }
        None => Piece {
            bytes: 0,
            frames: 0,
        },
    }
}

// Adds the runs of the pieces to a log one by one, and gives the count of the log's frames.
pub(crate) fn add_runs<D: Disk>(
    notes: &[Piece],
    bytes: &[u8],
    log: &mut Log<D>,
) -> Result<u64, Failed>
    requires live { log.old.stalled ≡ false }
    requires laid { (pieces : List (List (List ℕ))) × AreLaid notes.now bytes.now pieces }
    requires room { log.old.bytes + length bytes.now < 2 ^ 64 }
    ensures count { D.tells → IfOk result (λ n. n ≡ length log.new.frames) }
    ensures added { D.tells → (pieces : List (List (List ℕ))) → AreLaid notes.now bytes.now pieces →
        OnOk result (log.new.frames ≡ log.old.frames ++ in_order pieces) }
    ensures bytes { OnOk result (log.new.bytes ≡ log.old.bytes + length bytes.now) }
    ensures live_on { OnOk result (log.new.stalled ≡ false) }
    ensures room { log.new.room ≡ log.old.room }
    ensures durable { D.tells → OnOk result ((c : List ℕ) → D.image log.new.disk c → Reads c log.new.frames) }
    ensures any_moment { D.tells → (pieces : List (List (List ℕ))) → AreLaid notes.now bytes.now pieces →
        LeavesOnly D.moment D.left_since log.old.disk log.new.disk (ReadsWithFirst log.old.frames pieces) }
    ensures fault { OnErr result (Rose (D.faults log.old.disk) (D.faults log.new.disk)) }
    ensures no_fault { OnOk result (D.faults log.new.disk ≡ D.faults log.old.disk) }
    ensures stalled { OnErr result (log.new.stalled ≡ true) }
    ensures changes { OnOk result (RisesBy (2 * length notes.now) (D.changes log.old.disk) (D.changes log.new.disk)) }
    ensures breaks_off { (pieces : List (List (List ℕ))) → AreLaid notes.now bytes.now pieces →
        OnErr result (BreaksOff D.Disk pieces log.old log.new) }
    ensures setting { D.setting log.new.disk ≡ D.setting log.old.disk }
{
    let _before = log.anchor();
    let mut rest = bytes;
    for note in notes {
        let (run, behind) = rest.split_at(note.bytes as usize);
        log.append_run(run, note.frames)?;
        rest = behind;
    }
    Ok(log.count())
}
