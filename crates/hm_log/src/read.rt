//! Bytes read as frames.
ghost use Rattle.std.specs.Prelude.{◌≡◌, ◌≢◌, ◌≤◌, ◌++◌, List, ℕ, length, take, slice_index, IfSome, IfNone, IfOk};
ghost use Rattle.hm_log.specs.Format.{laid, magic, IsFrame, NoFrame, BeginsWith, NoHead};

use crate::Frames;
use std::alloc::{AllocError, Global};

const MAGIC: [u8; 8] = [72, 77, 65, 83, 84, 69, 82, 74];

// The frame after an open gate, and what follows it.
fn split_frame(rest: &[u8]) -> Option<(&[u8], &[u8])>
    ensures frame { IfSome result (λ p.
        (rest.now ≡ laid p.0.now ++ p.1.now) × IsFrame p.0.now × (1 ≤ length p.1.now)) }
    ensures none { IfNone result (NoFrame rest.now) }
{
    if rest.len() < 4 {
        return None;
    }
    let (head, tail) = rest.split_at(4);
    let size = u32::from_le_bytes([head[0], head[1], head[2], head[3]]) as usize;
    if size == 0 || size > 65_536 || tail.len() <= size {
        return None;
    }
    Some(tail.split_at(size))
}

// The place that shows that it is no log, in the first bytes of a file, which are all or eleven. A log of version 1 has ten
// at least.
pub(crate) fn not_a_log(bytes: &[u8]) -> Option<u64>
    requires { 1 ≤ length bytes.now }
    ensures some { IfSome result (λ place. NoHead bytes.now place) }
    ensures none { IfNone result ((10 ≤ length bytes.now) × (take 8 bytes.now ≡ magic)
        × (slice_index bytes.now 8 ≢ 1 → 11 ≤ length bytes.now)) }
{
    if bytes.len() < 10 {
        return Some(bytes.len() as u64);
    }
    for i in 0..8 {
        if bytes[i] != MAGIC[i] {
            return Some(i as u64);
        }
    }
    if bytes[8] != 1 && bytes.len() == 10 {
        return Some(10);
    }
    None
}

// Adds the frames that stand whole in these bytes, from a gate on, and gives the place of the gate after
// them: it is closed, or has no whole frame here.
pub(crate) fn take_frames(
    alloc: Global,
    bytes: &[u8],
    frames: &mut Frames,
) -> Result<usize, AllocError>
    requires { 1 ≤ length bytes.now }
    ensures { IfOk result (λ place. (more : List (List ℕ))
        × (frames.new ≡ frames.old ++ more) × BeginsWith bytes.now more place) }
{
    let mut rest = bytes;
    while rest[0] == b'+' {
        let Some((frame, next)) = split_frame(&rest[1..]) else {
            return Ok(bytes.len() - rest.len());
        };
        frames.push(alloc, frame)?;
        rest = next;
    }
    Ok(bytes.len() - rest.len())
}
