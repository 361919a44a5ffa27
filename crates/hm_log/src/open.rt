//! The steps of an opening on its disk.
ghost use Rattle.std.specs.Prelude.{◌≡◌, ◌≢◌, ◌⊎◌, ◌+◌, ◌^◌, ◌≤◌, ◌<◌, ◌++◌, ◌∷◌, List, ℕ, [], length, take, vec_capacity, All, IfOk, IfErr, OnOk, OnErr, IsErrOf};
ghost use Rattle.hm_ports.specs.Faults.{Rose};
ghost use Rattle.hm_disk.specs.Called.{IsCalled};
ghost use Rattle.hm_disk.specs.Disk.{Torn, CutOrWhole, Only, LeavesOnly, LeavesThen};
ghost use Rattle.hm_log.specs.Format.{image_of, log_of, size_with, IsFrame, IsFirst, IsMoved, IsPlain, Reads, HoldsFrames, IsWhole, IsClean, IsNotALog, IsBadFrame};
ghost use Rattle.hm_log.specs.Opening.{IsBlank, Settles, IsMaking, IsInPlace, IsUsed, Reopens, IsUntouched};
ghost use Rattle.hm_log.specs.Pieces.{IsFound, ReadsTo};
ghost use Rattle.hm_log.specs.declared.why.OpenWhy.TheVariants.{Fault, NotALog, BadFrame, Memory};

use crate::device::{trim, write_through};
use crate::moving::{ROOM, finish, move_up};
use crate::pieces::{Found, Layout, load};
use crate::{Frames, OpenWhy};
use hm_disk::Disk;
use hm_ports::Failed;
use std::alloc::Global;

// The magic, version 2, a selector and a closed gate.
const NEW: [u8; 11] = [72, 77, 65, 83, 84, 69, 82, 74, 2, 45, 45];

// The frames, the place of the closed gate after them, and room for appends.
#[derive(Drop)]
pub(crate) struct Ready {
    pub(crate) frames: Frames,
    pub(crate) gate: u64,
    pub(crate) buffer: Vec<u8>,
}

// Makes a new log on an empty disk.
fn make<D: Disk>(disk: &mut D) -> Result<(), Failed>
    requires empty { D.tells → length (D.seen disk.old) ≡ 0 }
    requires only { Only (D.seen disk.old) (D.image disk.old) }
    ensures made { D.tells → OnOk result (D.seen disk.new ≡ log_of []) }
    ensures durable { OnOk result (Only (D.seen disk.new) (D.image disk.new)) }
    ensures any_moment { D.tells → LeavesOnly D.moment D.left_since disk.old disk.new (Torn 0 11 []) }
    ensures fault { OnErr result (Rose (D.faults disk.old) (D.faults disk.new)) }
    ensures no_fault { OnOk result (D.faults disk.new ≡ D.faults disk.old) }
    ensures called { IsCalled D.Disk 1 disk.old disk.new }
{
    write_through(disk, 0, &NEW)
}

// Cuts what stands after the closed gate.
fn cut_behind<D: Disk>(disk: &mut D, gate: u64, size: u64) -> Result<(), Failed>
    requires size { D.tells → size ≡ length (D.seen disk.old) }
    requires within { D.tells → gate + 1 ≤ length (D.seen disk.old) }
    requires small { gate + 1 < 2 ^ 64 }
    requires only { Only (D.seen disk.old) (D.image disk.old) }
    ensures cut { D.tells → OnOk result (D.seen disk.new ≡ take (gate + 1) (D.seen disk.old)) }
    ensures durable { OnOk result (Only (D.seen disk.new) (D.image disk.new)) }
    ensures any_moment { LeavesOnly D.moment D.left_since disk.old disk.new (CutOrWhole (gate + 1) (D.seen disk.old)) }
    ensures fault { OnErr result (Rose (D.faults disk.old) (D.faults disk.new)) }
    ensures no_fault { OnOk result (D.faults disk.new ≡ D.faults disk.old) }
    ensures called { IsCalled D.Disk 1 disk.old disk.new }
    ensures clean { size ≡ gate + 1 → IsCalled D.Disk 0 disk.old disk.new }
{
    if size == gate + 1 {
        return Ok(());
    }
    trim(disk, gate + 1)
}

// Makes a log of version 1 one of version 2: a new one, if it has no frame.
fn renew<D: Disk>(disk: &mut D, found: &Found, buffer: &mut Vec<u8>) -> Result<(), Failed>
    requires first { D.tells → (free : List ℕ) × ReadsTo IsFirst (D.seen disk.old) found.now.gate found.now.frames free }
    requires size { D.tells → found.now.size ≡ length (D.seen disk.old) }
    requires small { (size_with found.now.frames < 2 ^ 63) × (found.now.gate + 2 < 2 ^ 63) }
    requires room { 65542 ≤ vec_capacity buffer.old }
    requires only { Only (D.seen disk.old) (D.image disk.old) }
    ensures written { D.tells → OnOk result (D.seen disk.new ≡ log_of found.now.frames) }
    ensures durable { OnOk result (Only (D.seen disk.new) (D.image disk.new)) }
    ensures any_moment { D.tells → Settles D.moment D.left_since (D.seen disk.old) found.now.frames disk.old disk.new }
    ensures capacity { vec_capacity buffer.new ≡ vec_capacity buffer.old }
    ensures fault { OnErr result (Rose (D.faults disk.old) (D.faults disk.new)) }
    ensures no_fault { OnOk result (D.faults disk.new ≡ D.faults disk.old) }
    ensures used { IsUsed D.Disk disk.old disk.new }
{
    if found.frames.count() == 0 {
        trim(disk, 0)?;
        return make(disk);
    }
    cut_behind(disk, found.gate, found.size)?;
    move_up(disk, found.gate, &found.frames, buffer)
}

// Makes what was found a plain log of version 2 with nothing after its frames.
fn settle<D: Disk>(disk: &mut D, found: &Found, buffer: &mut Vec<u8>) -> Result<(), Failed>
    requires found { D.tells → IsFound (D.seen disk.old) found.now.layout found.now.frames found.now.gate }
    requires size { D.tells → found.now.size ≡ length (D.seen disk.old) }
    requires small { (size_with found.now.frames < 2 ^ 63) × (found.now.gate + 2 < 2 ^ 63) }
    requires room { 65542 ≤ vec_capacity buffer.old }
    requires only { Only (D.seen disk.old) (D.image disk.old) }
    ensures whole { (at : ℕ) → at + 1 ≡ size_with found.now.frames → D.tells → OnOk result (IsWhole (D.seen disk.new) at found.now.frames) }
    ensures made { D.tells → IsBlank (D.seen disk.old) → OnOk result (D.seen disk.new ≡ log_of []) }
    ensures first { D.tells → (front body : List ℕ) → IsFirst (D.seen disk.old) front body → OnOk result (D.seen disk.new ≡ log_of found.now.frames) }
    ensures kept { D.tells → (front body : List ℕ) → IsPlain (D.seen disk.old) front body →
        OnOk result (D.seen disk.new ≡ take (size_with found.now.frames) (D.seen disk.old)) }
    ensures moved { D.tells → (front body : List ℕ) → IsMoved (D.seen disk.old) front body →
        OnOk result (D.seen disk.new ≡ take 9 (D.seen disk.old) ++ 45 ∷ image_of found.now.frames) }
    ensures durable { OnOk result (Only (D.seen disk.new) (D.image disk.new)) }
    ensures any_moment { D.tells → Settles D.moment D.left_since (D.seen disk.old) found.now.frames disk.old disk.new }
    ensures capacity { vec_capacity buffer.new ≡ vec_capacity buffer.old }
    ensures fault { OnErr result (Rose (D.faults disk.old) (D.faults disk.new)) }
    ensures no_fault { OnOk result (D.faults disk.new ≡ D.faults disk.old) }
    ensures used { IsUsed D.Disk disk.old disk.new }
    ensures few { D.tells → IsInPlace (D.seen disk.old) → IsCalled D.Disk 1 disk.old disk.new }
    ensures clean { D.tells → IsClean (D.seen disk.old) → IsCalled D.Disk 0 disk.old disk.new }
{
    match found.layout {
        Layout::Blank => make(disk),
        Layout::First => renew(disk, found, buffer),
        Layout::Plain => cut_behind(disk, found.gate, found.size),
        Layout::Moved => finish(disk, &found.frames, buffer),
    }
}

// Reads the frames and the place of the gate after them, and makes the disk a plain log with nothing after them.
pub(crate) fn prepare<D: Disk>(alloc: Global, disk: &mut D) -> Result<Ready, OpenWhy>
    ensures whole { D.tells → IfOk result (λ r. IsWhole (D.seen disk.new) r.gate r.frames) }
    ensures made { D.tells → IsBlank (D.seen disk.old) → OnOk result (D.seen disk.new ≡ log_of []) }
    ensures first { D.tells → (front body : List ℕ) → IsFirst (D.seen disk.old) front body →
        IfOk result (λ r. D.seen disk.new ≡ log_of r.frames) }
    ensures kept { D.tells → (front body : List ℕ) → IsPlain (D.seen disk.old) front body →
        IfOk result (λ r. D.seen disk.new ≡ take (r.gate + 1) (D.seen disk.old)) }
    ensures moved { D.tells → (front body : List ℕ) → IsMoved (D.seen disk.old) front body →
        IfOk result (λ r. D.seen disk.new ≡ take 9 (D.seen disk.old) ++ 45 ∷ image_of r.frames) }
    ensures frames { D.tells → IfOk result (λ r. HoldsFrames (D.seen disk.old) r.frames) }
    ensures each { IfOk result (λ r. All IsFrame r.frames) }
    ensures size { IfOk result (λ r. r.gate + 1 ≡ size_with r.frames) }
    ensures small { IfOk result (λ r. (r.gate + 1 < 2 ^ 63) × (length r.frames ≤ r.gate)) }
    ensures buffer { IfOk result (λ r. 65542 ≤ vec_capacity r.buffer) }
    ensures durable { OnOk result (Only (D.seen disk.new) (D.image disk.new)) }
    ensures from_then_on { D.tells → IfOk result (λ r. LeavesThen D.moment D.left_since disk.old disk.new
        (λ c. D.image disk.old c ⊎ IsMaking (D.seen disk.old) c) (λ c. Reads c r.frames)) }
    ensures any_moment { D.tells → OnErr result (LeavesOnly D.moment D.left_since disk.old disk.new
        (λ c. D.image disk.old c ⊎ Reopens (D.seen disk.old) c)) }
    ensures left { D.tells →
        OnErr result ((D.seen disk.new ≡ D.seen disk.old) ⊎ Reopens (D.seen disk.old) (D.seen disk.new)) }
    ensures untouched { IfErr result (λ e. e ≢ Fault →
        IsUntouched D.seen D.image D.changes disk.old disk.new) }
    ensures not_a_log { D.tells → (place : ℕ) →
        IsErrOf result (NotALog place) → IsNotALog (D.seen disk.old) place }
    ensures bad_frame { D.tells → (place : ℕ) →
        IsErrOf result (BadFrame place) → IsBadFrame (D.seen disk.old) place }
    ensures fault { IsErrOf result Fault → Rose (D.faults disk.old) (D.faults disk.new) }
    ensures no_fault { OnOk result (D.faults disk.new ≡ D.faults disk.old) }
    ensures memory { D.tells → (place : ℕ) →
        IsErrOf result Memory → IsNotALog (D.seen disk.old) place → ⊥ }
    ensures used { IsUsed D.Disk disk.old disk.new }
    ensures few { D.tells → IsInPlace (D.seen disk.old) → IsCalled D.Disk 1 disk.old disk.new }
    ensures clean { D.tells → IsClean (D.seen disk.old) → IsCalled D.Disk 0 disk.old disk.new }
{
    let found = load(alloc, disk)?;
    let mut buffer = Vec::with_capacity(alloc, ROOM)?;
    settle(disk, &found, &mut buffer)?;
    let gate = found.frames.image_size() + 9;
    Ok(Ready {
        frames: found.frames,
        gate,
        buffer,
    })
}
