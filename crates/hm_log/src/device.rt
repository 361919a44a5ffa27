//! Steps on the disk that end with a sync.
ghost use Rattle.std.specs.Prelude.{◌≡◌, ◌^◌, ◌≤◌, ◌<◌, List, ℕ, length, take, vec_len, IfOk, OnOk, OnErr, IsErrOf};
ghost use Rattle.hm_ports.specs.Faults.{Rose};
ghost use Rattle.hm_disk.specs.Called.{IsCalled};
ghost use Rattle.hm_disk.specs.Disk.{written, Torn, CutOrWhole, Only, RisesBy, LeavesOnly, LeavesThen};
ghost use Rattle.hm_log.specs.Opening.{IsUntouched};
ghost use Rattle.hm_log.specs.declared.why.OpenWhy.TheVariants.{Fault, NotALog, BadFrame};

use crate::OpenWhy;
use hm_disk::Disk;
use hm_ports::Failed;
use std::alloc::Global;

// Writes and syncs.
pub(crate) fn write_through<D: Disk>(disk: &mut D, at: u64, bytes: &[u8]) -> Result<(), Failed>
    requires place { D.tells → at ≤ length (D.seen disk.old) }
    requires some { 0 < length bytes.now }
    requires only { Only (D.seen disk.old) (D.image disk.old) }
    ensures written { D.tells → OnOk result (D.seen disk.new ≡ written at bytes.now (D.seen disk.old)) }
    ensures part { D.tells → Torn at (length bytes.now) (D.seen disk.old) (D.seen disk.new) }
    ensures durable { OnOk result (Only (D.seen disk.new) (D.image disk.new)) }
    ensures any_moment { LeavesOnly D.moment D.left_since disk.old disk.new
        (λ c. Torn at (length bytes.now) (D.seen disk.old) c) }
    ensures fault { OnErr result (Rose (D.faults disk.old) (D.faults disk.new)) }
    ensures no_fault { OnOk result (D.faults disk.new ≡ D.faults disk.old) }
    ensures changes { RisesBy 1 (D.changes disk.old) (D.changes disk.new) }
    ensures called { IsCalled D.Disk 1 disk.old disk.new }
{
    disk.write_at(at, bytes)?;
    disk.sync()
}

// Cuts and syncs.
pub(crate) fn trim<D: Disk>(disk: &mut D, size: u64) -> Result<(), Failed>
    requires place { D.tells → size ≤ length (D.seen disk.old) }
    requires only { Only (D.seen disk.old) (D.image disk.old) }
    ensures cut { D.tells → OnOk result (D.seen disk.new ≡ take size (D.seen disk.old)) }
    ensures part { D.tells → CutOrWhole size (D.seen disk.old) (D.seen disk.new) }
    ensures durable { OnOk result (Only (D.seen disk.new) (D.image disk.new)) }
    ensures any_moment { LeavesOnly D.moment D.left_since disk.old disk.new
        (λ c. CutOrWhole size (D.seen disk.old) c) }
    ensures fault { OnErr result (Rose (D.faults disk.old) (D.faults disk.new)) }
    ensures no_fault { OnOk result (D.faults disk.new ≡ D.faults disk.old) }
    ensures changes { RisesBy 1 (D.changes disk.old) (D.changes disk.new) }
    ensures called { IsCalled D.Disk 1 disk.old disk.new }
{
    disk.cut(size)?;
    disk.sync()
}
