//! Moving an image of frames into a log.
ghost use Rattle.std.specs.Prelude.{◌≡◌, ◌≢◌, ◌⊎◌, ◌+◌, ◌*◌, ◌^◌, ◌≤◌, ◌<◌, ◌++◌, ◌∷◌, [], List, ℕ, length, take, vec_len, vec_capacity, All, IfOk, OnOk, OnErr};
ghost use Rattle.hm_ports.specs.Faults.{Rose};
ghost use Rattle.hm_disk.specs.Disk.{written, Torn, Only, LeavesOnly};
ghost use Rattle.hm_log.specs.Format.{laid, log_of, image_of, image_size, size_with, place_bytes, frames_of, head, IsFrame, IsWhole, OldOrNew, Reads};
ghost use Rattle.hm_log.specs.Moving.{KeepsWithin, IsStaged, IsMovedLog, IsWholeFirst};
ghost use Rattle.hm_log.specs.Opening.{IsUsed};

use crate::Frames;
use crate::device::{trim, write_through};
use crate::run::put;
use hm_disk::Disk;
use hm_ports::Failed;

// The room that a buffer has: a frame of the greatest length with its gate, four bytes of length and the gate after it.
pub(crate) const ROOM: usize = 65_542;

// Writes within a run of writes, without a sync.
fn put_part<D: Disk>(disk: &mut D, at: u64, bytes: &[u8]) -> Result<(), Failed>
    requires place { D.tells → at ≤ length (D.seen disk.old) }
    requires some { 0 < length bytes.now }
    ensures written { D.tells → OnOk result (D.seen disk.new ≡ written at bytes.now (D.seen disk.old)) }
    ensures goes_on { KeepsWithin D.Disk at (at + length bytes.now) disk.old disk.new }
    ensures fault { OnErr result (Rose (D.faults disk.old) (D.faults disk.new)) }
    ensures no_fault { OnOk result (D.faults disk.new ≡ D.faults disk.old) }
    ensures used { IsUsed D.Disk disk.old disk.new }
{
    disk.write_at(at, bytes)
}

// Makes the buffer so many zeros.
fn fill(buffer: &mut Vec<u8>, count: usize)
    requires { count ≤ vec_capacity buffer.old }
    ensures capacity { vec_capacity buffer.new ≡ vec_capacity buffer.old }
    ensures long { length buffer.new.items ≡ count }
{
    buffer.clear();
    for _ in 0..count {
        buffer.push_reserved(0);
    }
}

// Writes zeros from the end up to a place.
fn put_zeros<D: Disk>(
    disk: &mut D,
    end: u64,
    place: u64,
    buffer: &mut Vec<u8>,
) -> Result<(), Failed>
    requires end { D.tells → end ≡ length (D.seen disk.old) }
    requires order { end ≤ place }
    requires room { 65542 ≤ vec_capacity buffer.old }
    ensures written { D.tells → OnOk result ((zeros : List ℕ) × (end + length zeros ≡ place) × (D.seen disk.new ≡ D.seen disk.old ++ zeros)) }
    ensures goes_on { KeepsWithin D.Disk end place disk.old disk.new }
    ensures capacity { vec_capacity buffer.new ≡ vec_capacity buffer.old }
    ensures fault { OnErr result (Rose (D.faults disk.old) (D.faults disk.new)) }
    ensures no_fault { OnOk result (D.faults disk.new ≡ D.faults disk.old) }
    ensures used { IsUsed D.Disk disk.old disk.new }
{
    let mut at = end;
    while at < place {
        let count = (place - at).min(ROOM as u64);
        fill(buffer, count as usize);
        put_part(disk, at, buffer)?;
        at += count;
    }
    Ok(())
}

// Adds an open gate and a frame to the buffer.
fn lay_open(buffer: &mut Vec<u8>, frame: &[u8])
    requires size { IsFrame frame.now }
    requires room { vec_len buffer.old + length frame.now + 5 ≤ vec_capacity buffer.old }
    ensures capacity { vec_capacity buffer.new ≡ vec_capacity buffer.old }
    ensures laid { buffer.new.items ≡ buffer.old.items ++ 43 ∷ laid frame.now }
{
    put(buffer, b"+");
    put(buffer, &(frame.len() as u32).to_le_bytes());
    put(buffer, frame);
}

// Writes what the buffer has, unless a frame and a closed gate fit after it, and gives the place where it goes on.
fn make_room<D: Disk>(
    disk: &mut D,
    place: u64,
    frame: &[u8],
    buffer: &mut Vec<u8>,
) -> Result<u64, Failed>
    requires place { D.tells → place ≤ length (D.seen disk.old) }
    requires fits { place + length buffer.old.items < 2 ^ 64 }
    requires size { IsFrame frame.now }
    ensures written { IfOk result (λ to. (front : List ℕ) × (front ++ buffer.new.items ≡ buffer.old.items) × (to ≡ place + length front)
        × (D.tells → D.seen disk.new ≡ written place front (D.seen disk.old))) }
    ensures goes_on { KeepsWithin D.Disk place (place + length buffer.old.items) disk.old disk.new }
    ensures room { OnOk result (length buffer.new.items + length frame.now + 6 ≤ 65542) }
    ensures capacity { vec_capacity buffer.new ≡ vec_capacity buffer.old }
    ensures fault { OnErr result (Rose (D.faults disk.old) (D.faults disk.new)) }
    ensures no_fault { OnOk result (D.faults disk.new ≡ D.faults disk.old) }
    ensures used { IsUsed D.Disk disk.old disk.new }
{
    if buffer.len() + frame.len() + 6 <= ROOM {
        return Ok(place);
    }
    put_part(disk, place, buffer)?;
    let next = place + buffer.len() as u64;
    buffer.clear();
    Ok(next)
}

// Writes an image of the frames from a place on, in pieces.
fn put_image<D: Disk>(
    disk: &mut D,
    at: u64,
    frames: &Frames,
    buffer: &mut Vec<u8>,
) -> Result<(), Failed>
    requires place { D.tells → at ≤ length (D.seen disk.old) }
    requires fits { at + image_size frames.now < 2 ^ 64 }
    requires room { 65542 ≤ vec_capacity buffer.old }
    ensures written { D.tells → OnOk result (D.seen disk.new ≡ written at (image_of frames.now) (D.seen disk.old)) }
    ensures goes_on { KeepsWithin D.Disk at (at + image_size frames.now) disk.old disk.new }
    ensures capacity { vec_capacity buffer.new ≡ vec_capacity buffer.old }
    ensures fault { OnErr result (Rose (D.faults disk.old) (D.faults disk.new)) }
    ensures no_fault { OnOk result (D.faults disk.new ≡ D.faults disk.old) }
    ensures used { IsUsed D.Disk disk.old disk.new }
{
    let mut place = at;
    buffer.clear();
    for number in 0..frames.count() {
        let frame = frames.frame(number);
        place = make_room(disk, place, frame, buffer)?;
        lay_open(buffer, frame);
    }
    put(buffer, b"-");
    put_part(disk, place, buffer)
}

// Writes an image of the frames over the first bytes after the selector, and syncs.
fn write_front<D: Disk>(disk: &mut D, frames: &Frames, buffer: &mut Vec<u8>) -> Result<(), Failed>
    requires place { D.tells → 10 ≤ length (D.seen disk.old) }
    requires only { Only (D.seen disk.old) (D.image disk.old) }
    requires fits { image_size frames.now + 10 < 2 ^ 64 }
    requires room { 65542 ≤ vec_capacity buffer.old }
    ensures written { D.tells → OnOk result (D.seen disk.new ≡ written 10 (image_of frames.now) (D.seen disk.old)) }
    ensures durable { OnOk result (Only (D.seen disk.new) (D.image disk.new)) }
    ensures any_moment { LeavesOnly D.moment D.left_since disk.old disk.new
        (λ c. Torn 10 (image_size frames.now) (D.seen disk.old) c) }
    ensures capacity { vec_capacity buffer.new ≡ vec_capacity buffer.old }
    ensures fault { OnErr result (Rose (D.faults disk.old) (D.faults disk.new)) }
    ensures no_fault { OnOk result (D.faults disk.new ≡ D.faults disk.old) }
    ensures used { IsUsed D.Disk disk.old disk.new }
{
    put_image(disk, 10, frames, buffer)?;
    disk.sync()
}

// Fills a log up to a place with zeros, writes an image of the frames there and the place after it, and syncs.
pub(crate) fn write_behind<D: Disk>(
    disk: &mut D,
    end: u64,
    place: u64,
    frames: &Frames,
    buffer: &mut Vec<u8>,
) -> Result<(), Failed>
    requires end { D.tells → end ≡ length (D.seen disk.old) }
    requires order { end ≤ place }
    requires only { Only (D.seen disk.old) (D.image disk.old) }
    requires fits { place + image_size frames.now + 8 < 2 ^ 64 }
    requires room { 65542 ≤ vec_capacity buffer.old }
    ensures staged { D.tells → OnOk result (IsStaged (D.seen disk.old) frames.now place (D.seen disk.new)) }
    ensures durable { OnOk result (Only (D.seen disk.new) (D.image disk.new)) }
    ensures any_moment { (n : ℕ) → end + n ≡ place + image_size frames.now + 8 →
        LeavesOnly D.moment D.left_since disk.old disk.new (λ c. Torn end n (D.seen disk.old) c) }
    ensures capacity { vec_capacity buffer.new ≡ vec_capacity buffer.old }
    ensures fault { OnErr result (Rose (D.faults disk.old) (D.faults disk.new)) }
    ensures no_fault { OnOk result (D.faults disk.new ≡ D.faults disk.old) }
    ensures used { IsUsed D.Disk disk.old disk.new }
{
    put_zeros(disk, end, place, buffer)?;
    put_image(disk, place, frames, buffer)?;
    put_part(disk, place + frames.image_size(), &place.to_le_bytes())?;
    disk.sync()
}

// Ends a move: copies the frames of a moved log to its front, makes the selector a minus, and cuts what is after them.
pub(crate) fn finish<D: Disk>(
    disk: &mut D,
    frames: &Frames,
    buffer: &mut Vec<u8>,
) -> Result<(), Failed>
    requires moved { D.tells → IsMovedLog (D.seen disk.old) frames.now }
    requires only { Only (D.seen disk.old) (D.image disk.old) }
    requires fits { image_size frames.now + 10 < 2 ^ 64 }
    requires room { 65542 ≤ vec_capacity buffer.old }
    ensures written { D.tells → (version : ℕ) → (rest : List ℕ) → D.seen disk.old ≡ head version 43 ++ rest →
        OnOk result (D.seen disk.new ≡ head version 45 ++ image_of frames.now) }
    ensures durable { OnOk result (Only (D.seen disk.new) (D.image disk.new)) }
    ensures any_moment { D.tells → LeavesOnly D.moment D.left_since disk.old disk.new (λ c. Reads c frames.now) }
    ensures capacity { vec_capacity buffer.new ≡ vec_capacity buffer.old }
    ensures fault { OnErr result (Rose (D.faults disk.old) (D.faults disk.new)) }
    ensures no_fault { OnOk result (D.faults disk.new ≡ D.faults disk.old) }
    ensures used { IsUsed D.Disk disk.old disk.new }
{
    write_front(disk, frames, buffer)?;
    write_through(disk, 9, b"-")?;
    trim(disk, frames.image_size() + 10)
}

// Replaces the frames of a plain log with others.
pub(crate) fn move_in<D: Disk>(
    disk: &mut D,
    gate: u64,
    frames: &Frames,
    buffer: &mut Vec<u8>,
) -> Result<(), Failed>
    requires whole { D.tells → IsWhole (D.seen disk.old) gate (frames_of (D.seen disk.old)) }
    requires only { Only (D.seen disk.old) (D.image disk.old) }
    requires fits { gate + 1 + 2 * image_size frames.now + 18 < 2 ^ 64 }
    requires room { 65542 ≤ vec_capacity buffer.old }
    ensures written { D.tells → OnOk result (D.seen disk.new ≡ take 9 (D.seen disk.old) ++ 45 ∷ image_of frames.now) }
    ensures whole { (at : ℕ) → at ≡ 9 + image_size frames.now → D.tells → OnOk result (IsWhole (D.seen disk.new) at frames.now) }
    ensures durable { OnOk result (Only (D.seen disk.new) (D.image disk.new)) }
    ensures any_moment { D.tells →
        LeavesOnly D.moment D.left_since disk.old disk.new (OldOrNew (frames_of (D.seen disk.old)) frames.now) }
    ensures capacity { vec_capacity buffer.new ≡ vec_capacity buffer.old }
    ensures fault { OnErr result (Rose (D.faults disk.old) (D.faults disk.new)) }
    ensures no_fault { OnOk result (D.faults disk.new ≡ D.faults disk.old) }
    ensures used { IsUsed D.Disk disk.old disk.new }
{
    let end = gate + 1;
    let place = end.max(frames.image_size() + 10);
    write_behind(disk, end, place, frames, buffer)?;
    write_through(disk, 9, b"+")?;
    finish(disk, frames, buffer)
}

// Moves a log of version 1 with frames to version 2.
pub(crate) fn move_up<D: Disk>(
    disk: &mut D,
    gate: u64,
    frames: &Frames,
    buffer: &mut Vec<u8>,
) -> Result<(), Failed>
    requires some { 1 ≤ length frames.now }
    requires first { D.tells → IsWholeFirst (D.seen disk.old) gate frames.now }
    requires only { Only (D.seen disk.old) (D.image disk.old) }
    requires fits { gate + 2 < 2 ^ 63 }
    requires small { size_with frames.now < 2 ^ 63 }
    requires room { 65542 ≤ vec_capacity buffer.old }
    ensures written { D.tells → OnOk result (D.seen disk.new ≡ log_of frames.now) }
    ensures durable { OnOk result (Only (D.seen disk.new) (D.image disk.new)) }
    ensures any_moment { D.tells → LeavesOnly D.moment D.left_since disk.old disk.new (λ c. Reads c frames.now) }
    ensures capacity { vec_capacity buffer.new ≡ vec_capacity buffer.old }
    ensures fault { OnErr result (Rose (D.faults disk.old) (D.faults disk.new)) }
    ensures no_fault { OnOk result (D.faults disk.new ≡ D.faults disk.old) }
    ensures used { IsUsed D.Disk disk.old disk.new }
{
    write_behind(disk, gate + 1, gate + 2, frames, buffer)?;
    write_through(disk, 8, b"\x02")?;
    finish(disk, frames, buffer)
}
