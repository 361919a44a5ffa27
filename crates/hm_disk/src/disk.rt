//! What every disk promises.
ghost use Rattle.std.specs.Prelude.{◌≡◌, ◌+◌, ◌≤◌, ◌<◌, ◌↔◌, List, ℕ, length, take, drop, IfOk, OnOk, OnErr};
ghost use Rattle.hm_ports.specs.Faults.{Rose};
ghost use Rattle.hm_disk.specs.Disk.{written, Torn, CutOrWhole, Follows, Only, Elapses, RisesBy};

use hm_ports::Failed;

/// A disk of bytes. Between two syncs a stop may leave any bytes where something was written and
/// past the old end, and either size after a cut. After a sync that succeeds it leaves what a read
/// gives.
///
/// A call that fails may have done any part of its work, and is counted; one that succeeds isn't. A
/// call that only reads leaves all that a stop may leave. Where a kind of disk doesn't tell its
/// content, nothing is said of `seen` but that some calls leave it, and it may have no image.
pub trait Disk: Drop {
    /// The type of the disk's setting, `()` where it has none.
    type Setting;

    /// This kind of disk tells its content.
    ghost tells: { Type 0 };

    /// What a read gives.
    ghost seen: { Self → List ℕ };

    /// What a stop now may leave.
    ghost image: { Self → List ℕ → Type 0 };

    /// The moment, a number that never falls.
    ghost moment: { Self → ℕ };

    /// What a stop at some moment from that one on may have left.
    ghost left_since: { Self → ℕ → List ℕ → Type 0 };

    /// How often a call has failed.
    ghost faults: { Self → ℕ };

    /// How many calls of `write_at` and `cut` there were, whatever they answered.
    ghost changes: { Self → ℕ };

    /// Plain data that no call of this trait changes.
    ghost setting: { Self → Self.Setting };

    /// The size in bytes.
    fn size(&mut self) -> Result<u64, Failed>
        ensures size { tells → IfOk result (λ n. n ≡ length (seen self.old)) }

        ensures seen { seen self.new ≡ seen self.old }
        ensures images { (c : List ℕ) → image self.new c ↔ image self.old c }
        ensures moment { moment self.new ≡ moment self.old }
        ensures time { Elapses (moment self.old) (moment self.new)
            (left_since self.old) (left_since self.new) (image self.new) }
        ensures fault { OnErr result (Rose (faults self.old) (faults self.new)) }
        ensures faults { faults self.old ≤ faults self.new }
        ensures no_fault { OnOk result (faults self.new ≡ faults self.old) }
        ensures changes { changes self.new ≡ changes self.old }
        ensures setting { setting self.new ≡ setting self.old };

    /// Reads the bytes from a place on, as many as the slice has.
    fn read_at(&mut self, at: u64, into: &mut [u8]) -> Result<(), Failed>
        requires { tells → at + length into.old ≤ length (seen self.old) }
        ensures read { tells →
            OnOk result (into.new ≡ take (length into.old) (drop at (seen self.old))) }

        ensures seen { seen self.new ≡ seen self.old }
        ensures images { (c : List ℕ) → image self.new c ↔ image self.old c }
        ensures moment { moment self.new ≡ moment self.old }
        ensures time { Elapses (moment self.old) (moment self.new)
            (left_since self.old) (left_since self.new) (image self.new) }
        ensures fault { OnErr result (Rose (faults self.old) (faults self.new)) }
        ensures faults { faults self.old ≤ faults self.new }
        ensures no_fault { OnOk result (faults self.new ≡ faults self.old) }
        ensures changes { changes self.new ≡ changes self.old }
        ensures setting { setting self.new ≡ setting self.old };

    /// Writes these bytes at a place, over what stands there and past the end.
    fn write_at(&mut self, at: u64, bytes: &[u8]) -> Result<(), Failed>
        requires place { tells → at ≤ length (seen self.old) }
        requires some { 0 < length bytes.now }
        ensures written { tells →
            OnOk result (seen self.new ≡ written at bytes.now (seen self.old)) }
        ensures part { tells → Torn at (length bytes.now) (seen self.old) (seen self.new) }

        ensures crash { Follows (Torn at (length bytes.now)) (image self.old) (image self.new) }
        ensures time { Elapses (moment self.old) (moment self.new)
            (left_since self.old) (left_since self.new) (image self.new) }
        ensures fault { OnErr result (Rose (faults self.old) (faults self.new)) }
        ensures faults { faults self.old ≤ faults self.new }
        ensures no_fault { OnOk result (faults self.new ≡ faults self.old) }
        ensures changes { RisesBy 1 (changes self.old) (changes self.new) }
        ensures setting { setting self.new ≡ setting self.old };

    /// Makes this the size. It doesn't enlarge.
    fn cut(&mut self, size: u64) -> Result<(), Failed>
        requires place { tells → size ≤ length (seen self.old) }
        ensures cut { tells → OnOk result (seen self.new ≡ take size (seen self.old)) }
        ensures part { tells → CutOrWhole size (seen self.old) (seen self.new) }

        ensures crash { Follows (CutOrWhole size) (image self.old) (image self.new) }
        ensures time { Elapses (moment self.old) (moment self.new)
            (left_since self.old) (left_since self.new) (image self.new) }
        ensures fault { OnErr result (Rose (faults self.old) (faults self.new)) }
        ensures faults { faults self.old ≤ faults self.new }
        ensures no_fault { OnOk result (faults self.new ≡ faults self.old) }
        ensures changes { RisesBy 1 (changes self.old) (changes self.new) }
        ensures setting { setting self.new ≡ setting self.old };

    /// Waits until what a read gives is all that a stop can leave.
    fn sync(&mut self) -> Result<(), Failed>
        ensures durable { OnOk result (Only (seen self.old) (image self.new)) }

        ensures seen { seen self.new ≡ seen self.old }
        ensures crash { (c : List ℕ) → image self.new c → image self.old c }
        ensures time { Elapses (moment self.old) (moment self.new)
            (left_since self.old) (left_since self.new) (image self.new) }
        ensures fault { OnErr result (Rose (faults self.old) (faults self.new)) }
        ensures faults { faults self.old ≤ faults self.new }
        ensures no_fault { OnOk result (faults self.new ≡ faults self.old) }
        ensures changes { changes self.new ≡ changes self.old }
        ensures setting { setting self.new ≡ setting self.old };

    /// The disk as it reads is one of its images.
    ghost reads_now: { (d : Self) → tells → image d (seen d) };

    /// This moment is one of those since an earlier one.
    ghost counts_now: { (d : Self) (t : ℕ) (c : List ℕ) → t ≤ moment d → image d c → left_since d t c };

    /// Since this moment there is no other.
    ghost only_now: { (d : Self) (c : List ℕ) → left_since d (moment d) c → image d c };
}
