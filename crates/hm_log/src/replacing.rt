//! Replacing the frames of a log.
ghost use Rattle.std.specs.Prelude.{◌≡◌, ◌+◌, ◌*◌, ◌^◌, ◌≤◌, ◌<◌, ◌++◌, ◌∷◌, List, ℕ, length, take, false, true, IfOk, OnOk, OnErr};
ghost use Rattle.hm_ports.specs.Faults.{Rose};
ghost use Rattle.hm_disk.specs.Disk.{LeavesOnly};
ghost use Rattle.hm_log.specs.Format.{image_of, image_size, size_with, IsClean, OldOrNew, Reads};
ghost use Rattle.hm_log.specs.Opening.{IsUsed};

use crate::moving::move_in;
use crate::{Frames, Log};
use hm_disk::Disk;
use hm_ports::Failed;

impl<D: Disk> Log<D> {
    /// Replaces the frames of the log with others, and gives their count. A stop on the way leaves the old frames or the new.
    /// At `Ok` the new are on the disk. After an error the log is stalled.
    pub fn replace(&mut self, image: &Frames) -> Result<u64, Failed>
        requires live { self.old.stalled ≡ false }
        requires some { 1 ≤ length image.now }
        requires room { self.old.bytes + 2 * image_size image.now + 18 < 2 ^ 64 }

        // What it puts there.
        ensures count { IfOk result (λ n. n ≡ length image.now) }
        ensures frames { D.tells → OnOk result (self.new.frames ≡ image.now) }
        ensures bytes { OnOk result (self.new.bytes ≡ size_with image.now) }
        ensures live_on { OnOk result (self.new.stalled ≡ false) }

        // It takes no memory.
        ensures room { self.new.room ≡ self.old.room }

        // What the disk reads as, now and after each stop.
        ensures on_disk { D.tells → OldOrNew self.old.frames image.now (D.seen self.new.disk) }
        ensures written { D.tells → OnOk result (D.seen self.new.disk ≡ take 9 (D.seen self.old.disk) ++ 45 ∷ image_of image.now) }
        ensures whole { D.tells → OnOk result (IsClean (D.seen self.new.disk)) }
        ensures durable { D.tells →
            OnOk result ((c : List ℕ) → D.image self.new.disk c → Reads c image.now) }
        ensures any_moment { D.tells → LeavesOnly D.moment D.left_since self.old.disk self.new.disk
            (OldOrNew self.old.frames image.now) }

        // When it fails, and what that leaves.
        ensures fault { OnErr result (Rose (D.faults self.old.disk) (D.faults self.new.disk)) }
        ensures no_fault { OnOk result (D.faults self.new.disk ≡ D.faults self.old.disk) }
        ensures stalled { OnErr result (self.new.stalled ≡ true) }

        // The disk's counts and its setting.
        ensures used { IsUsed D.Disk self.old.disk self.new.disk }
    {
        self.stalled = true;
        move_in(&mut self.disk, self.gate, image, &mut self.buffer)?;
        self.gate = image.image_size() + 9;
        self.count = image.count();
        self.stalled = false;
        Ok(self.count)
    }
}
