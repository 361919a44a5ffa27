//! Reading the frames after a place of an open log.
ghost use Rattle.std.specs.Prelude.{◌≡◌, ◌+◌, ◌≤◌, ◌<◌, List, ℕ, length, drop, false, All, IfOk, OnOk, IsErrOf};
ghost use Rattle.hm_ports.specs.Faults.{Rose};
ghost use Rattle.hm_log.specs.Format.{IsFrame, Reads};
ghost use Rattle.hm_log.specs.Opening.{OnlyReads};
ghost use Rattle.hm_log.specs.Tail.{IsCursor};
ghost use Rattle.hm_log.specs.declared.why.OpenWhy.TheVariants.{Fault, NotALog, BadFrame};

use crate::pieces::read_tail;
use crate::{Frames, Log, OpenWhy};
use hm_disk::Disk;
use std::alloc::Global;

/// A place after some of a log's frames: that of the gate after them, and how many they are. That of the first gate is place
/// 10, number 0.
#[derive(Clone, Copy, Debug, PartialEq, Eq, Drop)]
pub struct Cursor {
    pub place: u64,
    pub number: u64,
}

impl<D: Disk> Log<D> {
    /// The frames after a cursor, read from the disk, and the cursor after them. `BadFrame` tells that the disk doesn't have what
    /// the log has: no frame follows an open gate, the frames end elsewhere, or they aren't as many.
    pub fn tail(&mut self, alloc: Global, from: Cursor) -> Result<(Frames, Cursor), OpenWhy>
        requires live { self.old.stalled ≡ false }
        requires from { D.tells → IsCursor self.old.frames from }

        // What it gives.
        ensures frames { D.tells → IfOk result (λ r. r.0 ≡ drop from.number self.old.frames) }
        ensures each { IfOk result (λ r. All IsFrame r.0) }
        ensures cursor { D.tells → IfOk result (λ r. IsCursor self.old.frames r.1 × (r.1.number ≡ length self.old.frames)) }
        ensures counts { IfOk result (λ r. r.1.number ≡ from.number + length r.0) }
        ensures place { IfOk result (λ r. r.1.place + 1 ≡ self.old.bytes) }
        ensures durable { D.tells → (c : List ℕ) → D.image self.new.disk c → Reads c self.old.frames }

        // When it fails.
        ensures fault { IsErrOf result Fault → Rose (D.faults self.old.disk) (D.faults self.new.disk) }
        ensures no_fault { OnOk result (D.faults self.new.disk ≡ D.faults self.old.disk) }
        ensures not_a_log { (place : ℕ) → IsErrOf result (NotALog place) → ⊥ }
        ensures bad_frame { D.tells → (place : ℕ) → IsErrOf result (BadFrame place) → ⊥ }

        // It only reads.
        ensures stays { self.new ≡ record self.old { disk = self.new.disk } }
        ensures only_reads { OnlyReads D.Disk self.old.disk self.new.disk }
    {
        if from.place > self.gate {
            return Err(OpenWhy::BadFrame(from.place));
        }
        let frames = read_tail(alloc, &mut self.disk, from.place, self.gate)?;
        if self.count < from.number || frames.count() != self.count - from.number {
            return Err(OpenWhy::BadFrame(self.gate));
        }
        let end = Cursor {
            place: self.gate,
            number: self.count,
        };
        Ok((frames, end))
    }
}
