//! Reading a log piece by piece, up to its closed gate.
ghost use Rattle.std.specs.Prelude.{◌≡◌, ◌≢◌, ◌+◌, ◌-◌, ◌^◌, ◌≤◌, ◌<◌, [], List, ℕ, length, take, drop, min, false, true, All, IfOk, OnOk, OnErr, IsErrOf};
ghost use Rattle.hm_ports.specs.Faults.{Rose};
ghost use Rattle.hm_disk.specs.Disk.{Only, LeavesThen};
ghost use Rattle.hm_log.specs.Format.{size_with, spelled, told_place, IsFrame, IsNotALog, IsBadFrame, IsOpenBad, NoBody, RunsTo};
ghost use Rattle.hm_log.specs.Opening.{ChangesNothing, OnlyReads};
ghost use Rattle.hm_log.specs.Pieces.{EndsAt, StandsIn, IsShutBehind, IsFound, IsSpanOf, body_in};
ghost use Rattle.hm_log.specs.declared.why.OpenWhy.TheVariants.{Fault, NotALog, BadFrame, Memory};

use crate::read::{not_a_log, take_frames};
use crate::{Frames, OpenWhy};
use hm_disk::Disk;
use hm_ports::Failed;
use std::alloc::Global;

// The most bytes that are read at once. A frame with its two gates fits many times.
const PIECE: u64 = 1_048_576;

// How a log lies on its disk: not at all, in version 1, in version 2 from byte 10 on, or in version 2 after bytes in which
// it is to be moved to the front.
#[derive(Clone, Copy, Drop)]
pub(crate) enum Layout {
    Blank,
    First,
    Plain,
    Moved,
}

// What a disk holds.
#[derive(Drop)]
pub(crate) struct Found {
    pub(crate) frames: Frames,
    pub(crate) layout: Layout,
    // The place of the closed gate after the frames.
    pub(crate) gate: u64,
    pub(crate) size: u64,
}

// The place of the first gate, and the end of what may be frames.
#[derive(Clone, Copy, Drop)]
struct Span {
    layout: Layout,
    first: u64,
    limit: u64,
}

// A gate that was read, or is to be.
#[derive(Clone, Copy)]
struct Gate {
    place: u64,
    is_open: bool,
}

// The size of the disk.
fn measure<D: Disk>(disk: &mut D) -> Result<u64, Failed>
    ensures size { D.tells → IfOk result (λ size. size ≡ length (D.seen disk.old)) }
    ensures only_reads { OnlyReads D.Disk disk.old disk.new }
    ensures fault { OnErr result (Rose (D.faults disk.old) (D.faults disk.new)) }
    ensures no_fault { OnOk result (D.faults disk.new ≡ D.faults disk.old) }
{
    disk.size()
}

// The bytes from a place on.
fn read<D: Disk>(disk: &mut D, at: u64, into: &mut [u8]) -> Result<(), Failed>
    requires { D.tells → at + length into.old ≤ length (D.seen disk.old) }
    ensures bytes { D.tells →
        OnOk result (into.new ≡ take (length into.old) (drop at (D.seen disk.old))) }
    ensures only_reads { OnlyReads D.Disk disk.old disk.new }
    ensures fault { OnErr result (Rose (D.faults disk.old) (D.faults disk.new)) }
    ensures no_fault { OnOk result (D.faults disk.new ≡ D.faults disk.old) }
{
    disk.read_at(at, into)
}

// Where the body of a log of version 2 stands whose selector is a plus.
fn survey_moved<D: Disk>(disk: &mut D, size: u64) -> Result<Span, OpenWhy>
    requires some { 11 ≤ size }
    requires size { D.tells → size ≡ length (D.seen disk.old) }
    ensures within { IfOk result (λ span. (span.first < span.limit) × (span.limit ≤ size) × (9 ≤ span.first)) }
    ensures body { D.tells → IfOk result (λ span. (span.layout ≡ Layout.Moved) × (span.first ≡ told_place (D.seen disk.old))
        × (span.limit + 8 ≡ size) × (NoBody span.first size → ⊥)) }
    ensures not_a_log { (place : ℕ) → IsErrOf result (NotALog place) → place ≡ 9 }
    ensures lost { D.tells → (place : ℕ) → IsErrOf result (NotALog place) → NoBody (told_place (D.seen disk.old)) size }
    ensures bad_frame { (place : ℕ) → IsErrOf result (BadFrame place) → ⊥ }
    ensures memory { IsErrOf result Memory → ⊥ }
    ensures only_reads { OnlyReads D.Disk disk.old disk.new }
    ensures fault { IsErrOf result Fault → Rose (D.faults disk.old) (D.faults disk.new) }
    ensures no_fault { OnOk result (D.faults disk.new ≡ D.faults disk.old) }
{
    let mut last = [0; 8];
    read(disk, size - 8, &mut last)?;
    let first = u64::from_le_bytes(last);
    if first < 11 || size - 9 < first || size - 8 - first > first - 10 {
        return Err(OpenWhy::NotALog(9));
    }
    Ok(Span {
        layout: Layout::Moved,
        first,
        limit: size - 8,
    })
}

// Where the body stands, by the first bytes and, for a moved log, the last.
fn survey<D: Disk>(disk: &mut D, size: u64) -> Result<Span, OpenWhy>
    requires some { 1 ≤ size }
    requires size { D.tells → size ≡ length (D.seen disk.old) }
    ensures within { IfOk result (λ span. (span.first < span.limit) × (span.limit ≤ size) × (9 ≤ span.first)) }
    ensures span { D.tells → IfOk result (λ span. IsSpanOf (D.seen disk.old) span.layout span.first span.limit) }
    ensures only_reads { OnlyReads D.Disk disk.old disk.new }
    ensures fault { IsErrOf result Fault → Rose (D.faults disk.old) (D.faults disk.new) }
    ensures no_fault { OnOk result (D.faults disk.new ≡ D.faults disk.old) }
    ensures not_a_log { D.tells → (place : ℕ) →
        IsErrOf result (NotALog place) → IsNotALog (D.seen disk.old) place }
    ensures bad_frame { (place : ℕ) → IsErrOf result (BadFrame place) → ⊥ }
    ensures memory { IsErrOf result Memory → ⊥ }
{
    let mut bytes = [0; 11];
    let head = &mut bytes[..size.min(11) as usize];
    read(disk, 0, head)?;
    if let Some(place) = not_a_log(head) {
        return Err(OpenWhy::NotALog(place));
    }
    if head[8] == 1 {
        return Ok(Span {
            layout: Layout::First,
            first: 9,
            limit: size,
        });
    }
    if head[9] == b'+' {
        return survey_moved(disk, size);
    }
    Ok(Span {
        layout: Layout::Plain,
        first: 10,
        limit: size,
    })
}

// Reads a piece from an open gate on, adds its frames, and gives the gate after them.
fn read_piece<D: Disk>(
    alloc: Global,
    disk: &mut D,
    span: Span,
    place: u64,
    piece: &mut [u8],
    frames: &mut Frames,
) -> Result<Gate, OpenWhy>
    requires limit { D.tells → span.limit ≤ length (D.seen disk.old) }
    requires room { min (span.limit - span.first) 1048576 ≤ length piece.old }
    requires ends { EndsAt span.first frames.old place span.limit }
    requires stands { D.tells → StandsIn (body_in span.first span.limit (D.seen disk.old)) frames.old }
    ensures ends { IfOk result (λ gate. EndsAt span.first frames.new gate.place span.limit) }
    ensures later { IfOk result (λ gate. place ≤ gate.place) }
    ensures goes_on { IfOk result (λ gate. gate.is_open ≡ true → place < gate.place) }
    ensures stands { D.tells → OnOk result (StandsIn (body_in span.first span.limit (D.seen disk.old)) frames.new) }
    ensures shut { D.tells → IfOk result (λ gate.
        gate.is_open ≡ false → IsShutBehind (body_in span.first span.limit (D.seen disk.old)) frames.new) }
    ensures only_reads { OnlyReads D.Disk disk.old disk.new }
    ensures fault { IsErrOf result Fault → Rose (D.faults disk.old) (D.faults disk.new) }
    ensures no_fault { OnOk result (D.faults disk.new ≡ D.faults disk.old) }
    ensures not_a_log { (at : ℕ) → IsErrOf result (NotALog at) → ⊥ }
    ensures bad_frame { D.tells → (at : ℕ) → IsErrOf result (BadFrame at) →
        (span.first ≤ at) × IsOpenBad (body_in span.first span.limit (D.seen disk.old)) (at - span.first) }
{
    let left = span.limit - place;
    let count = left.min(PIECE);
    let part = &mut piece[..count as usize];
    read(disk, place, part)?;
    let end = take_frames(alloc, part, frames)?;
    let gate = place + end as u64;
    if part[end] != b'+' {
        return Ok(Gate {
            place: gate,
            is_open: false,
        });
    }
    // The frame after an open gate is in the next piece, unless this one was long enough for any, or the last.
    if end == 0 || count == left {
        return Err(OpenWhy::BadFrame(gate));
    }
    Ok(Gate {
        place: gate,
        is_open: true,
    })
}

// Reads the frames of a body, and gives the place of the closed gate after them.
fn read_frames<D: Disk>(alloc: Global, disk: &mut D, span: Span) -> Result<(Frames, u64), OpenWhy>
    requires within { span.first < span.limit }
    requires limit { D.tells → span.limit ≤ length (D.seen disk.old) }
    ensures ends { IfOk result (λ r. EndsAt span.first r.0 r.1 span.limit) }
    ensures runs { D.tells → IfOk result (λ r. RunsTo (body_in span.first span.limit (D.seen disk.old)) r.0
        (drop (length (spelled r.0) + 1) (body_in span.first span.limit (D.seen disk.old)))) }
    ensures only_reads { OnlyReads D.Disk disk.old disk.new }
    ensures fault { IsErrOf result Fault → Rose (D.faults disk.old) (D.faults disk.new) }
    ensures no_fault { OnOk result (D.faults disk.new ≡ D.faults disk.old) }
    ensures not_a_log { (place : ℕ) → IsErrOf result (NotALog place) → ⊥ }
    ensures bad_frame { D.tells → (at : ℕ) → IsErrOf result (BadFrame at) →
        (span.first ≤ at) × IsOpenBad (body_in span.first span.limit (D.seen disk.old)) (at - span.first) }
{
    let mut frames = Frames::none(alloc);
    let mut piece = vec![in alloc; 0; (span.limit - span.first).min(PIECE) as usize]?;
    let mut gate = Gate {
        place: span.first,
        is_open: true,
    };
    while gate.is_open {
        gate = read_piece(alloc, disk, span, gate.place, &mut piece, &mut frames)?;
    }
    Ok((frames, gate.place))
}

// Whether the closed gate at this place isn't the last byte of a moved log's body.
fn ends_early(span: Span, gate: u64) -> bool
    requires { gate < span.limit }
    ensures early { result ≡ true → (span.layout ≡ Layout.Moved) × (gate + 1 < span.limit) }
    ensures last { result ≡ false → span.layout ≡ Layout.Moved → span.limit ≤ gate + 1 }
{
    match span.layout {
        Layout::Moved => gate + 1 < span.limit,
        _ => false,
    }
}

// What a disk that isn't empty holds.
fn find<D: Disk>(alloc: Global, disk: &mut D, size: u64) -> Result<Found, OpenWhy>
    requires some { 1 ≤ size }
    requires size { D.tells → size ≡ length (D.seen disk.old) }
    ensures found { D.tells → IfOk result (λ f. IsFound (D.seen disk.old) f.layout f.frames f.gate) }
    ensures size { IfOk result (λ f. f.size ≡ size) }
    ensures each { IfOk result (λ f. All IsFrame f.frames) }
    ensures small { IfOk result (λ f. (size_with f.frames < 2 ^ 63) × (f.gate + 2 < 2 ^ 63)) }
    ensures only_reads { OnlyReads D.Disk disk.old disk.new }
    ensures fault { IsErrOf result Fault → Rose (D.faults disk.old) (D.faults disk.new) }
    ensures no_fault { OnOk result (D.faults disk.new ≡ D.faults disk.old) }
    ensures not_a_log { D.tells → (place : ℕ) →
        IsErrOf result (NotALog place) → IsNotALog (D.seen disk.old) place }
    ensures bad_frame { D.tells → (place : ℕ) →
        IsErrOf result (BadFrame place) → IsBadFrame (D.seen disk.old) place }
    ensures memory { D.tells → (place : ℕ) →
        IsErrOf result Memory → IsNotALog (D.seen disk.old) place → ⊥ }
{
    let span = survey(disk, size)?;
    let (frames, gate) = read_frames(alloc, disk, span)?;
    if ends_early(span, gate) {
        return Err(OpenWhy::BadFrame(gate));
    }
    // So many bytes are in no memory.
    if gate >= (1 << 63) - 2 {
        return Err(OpenWhy::Memory);
    }
    Ok(Found {
        frames,
        layout: span.layout,
        gate,
        size,
    })
}

// What the disk holds. Nothing is read after the closed gate but the rest of its piece, and the place at the end of a moved log.
pub(crate) fn fetch<D: Disk>(alloc: Global, disk: &mut D) -> Result<Found, OpenWhy>
    ensures found { D.tells → IfOk result (λ f. IsFound (D.seen disk.old) f.layout f.frames f.gate) }
    ensures size { D.tells → IfOk result (λ f. f.size ≡ length (D.seen disk.old)) }
    ensures each { IfOk result (λ f. All IsFrame f.frames) }
    ensures small { IfOk result (λ f. (size_with f.frames < 2 ^ 63) × (f.gate + 2 < 2 ^ 63)) }
    ensures only_reads { OnlyReads D.Disk disk.old disk.new }
    ensures fault { IsErrOf result Fault → Rose (D.faults disk.old) (D.faults disk.new) }
    ensures no_fault { OnOk result (D.faults disk.new ≡ D.faults disk.old) }
    ensures not_a_log { D.tells → (place : ℕ) →
        IsErrOf result (NotALog place) → IsNotALog (D.seen disk.old) place }
    ensures bad_frame { D.tells → (place : ℕ) →
        IsErrOf result (BadFrame place) → IsBadFrame (D.seen disk.old) place }
    ensures memory { D.tells → (place : ℕ) →
        IsErrOf result Memory → IsNotALog (D.seen disk.old) place → ⊥ }
{
    let size = measure(disk)?;
    if size == 0 {
        return Ok(Found {
            frames: Frames::none(alloc),
            layout: Layout::Blank,
            gate: 10,
            size,
        });
    }
    find(alloc, disk, size)
}

// Syncs, and reads what the disk holds.
pub(crate) fn load<D: Disk>(alloc: Global, disk: &mut D) -> Result<Found, OpenWhy>
    ensures found { D.tells → IfOk result (λ f. IsFound (D.seen disk.old) f.layout f.frames f.gate) }
    ensures size { D.tells → IfOk result (λ f. f.size ≡ length (D.seen disk.old)) }
    ensures each { IfOk result (λ f. All IsFrame f.frames) }
    ensures small { IfOk result (λ f. (size_with f.frames < 2 ^ 63) × (f.gate + 2 < 2 ^ 63)) }
    ensures only { OnOk result (Only (D.seen disk.new) (D.image disk.new)) }
    ensures from_then_on { OnOk result (LeavesThen D.moment D.left_since disk.old disk.new
        (D.image disk.old) (λ c. c ≡ D.seen disk.old)) }
    ensures only_reads { ChangesNothing D.Disk disk.old disk.new }
    ensures fault { IsErrOf result Fault → Rose (D.faults disk.old) (D.faults disk.new) }
    ensures no_fault { OnOk result (D.faults disk.new ≡ D.faults disk.old) }
    ensures not_a_log { D.tells → (place : ℕ) →
        IsErrOf result (NotALog place) → IsNotALog (D.seen disk.old) place }
    ensures bad_frame { D.tells → (place : ℕ) →
        IsErrOf result (BadFrame place) → IsBadFrame (D.seen disk.old) place }
    ensures memory { D.tells → (place : ℕ) →
        IsErrOf result Memory → IsNotALog (D.seen disk.old) place → ⊥ }
{
    disk.sync()?;
    fetch(alloc, disk)
}

// The frames between a gate and the closed gate at the end of an open log.
pub(crate) fn read_tail<D: Disk>(
    alloc: Global,
    disk: &mut D,
    place: u64,
    gate: u64,
) -> Result<Frames, OpenWhy>
    requires within { (place ≤ gate) × (gate + 1 < 2 ^ 64) }
    requires limit { D.tells → gate + 1 ≤ length (D.seen disk.old) }
    ensures frames { D.tells → (more : List (List ℕ)) → RunsTo (body_in place (gate + 1) (D.seen disk.old)) more [] →
        IfOk result (λ frames. frames ≡ more) }
    ensures each { IfOk result (λ frames. All IsFrame frames) }
    ensures only_reads { OnlyReads D.Disk disk.old disk.new }
    ensures fault { IsErrOf result Fault → Rose (D.faults disk.old) (D.faults disk.new) }
    ensures no_fault { OnOk result (D.faults disk.new ≡ D.faults disk.old) }
    ensures not_a_log { (at : ℕ) → IsErrOf result (NotALog at) → ⊥ }
    ensures bad_frame { D.tells → (more : List (List ℕ)) → RunsTo (body_in place (gate + 1) (D.seen disk.old)) more [] →
        (at : ℕ) → IsErrOf result (BadFrame at) → ⊥ }
{
    let span = Span {
        layout: Layout::Plain,
        first: place,
        limit: gate + 1,
    };
    let (frames, end) = read_frames(alloc, disk, span)?;
    if end != gate {
        return Err(OpenWhy::BadFrame(end));
    }
    Ok(frames)
}
