//! Parts as frames.
ghost use Rattle.std.specs.Prelude.{◌≡◌, ◌≤◌, ◌++◌, ◌∷◌, [], length, All, IfOk, OnOk};
ghost use Rattle.hm_entry.specs.Fits.{EntryFits, EntryIsSpelled, PartFits};
ghost use Rattle.hm_entry.specs.Spelling.{entry as spelling};
ghost use Rattle.hm_roll.specs.Parts.{frame_of, frames_of, IsShort};

use hm_data::{Entry, Part};
use hm_entry::{encode_into, length};
use hm_log::Frames;
use hm_names::Copied;
use std::alloc::{AllocError, Global};

// The spelling of an entry.
fn spelled(alloc: Global, entry: &Entry) -> Result<Vec<u8>, AllocError>
    requires kinds { EntryIsSpelled entry.now }
    requires short { length (spelling entry.now) ≤ 65536 }
    ensures bytes { IfOk result (λ frame. frame.items ≡ spelling entry.now) }
    ensures fits { OnOk result (EntryFits entry.now) }
{
    let mut frame = Vec::with_capacity(alloc, length(entry) as usize)?;
    encode_into(entry, &mut frame);
    Ok(frame)
}

// The frame of a part.
fn part_frame(alloc: Global, part: &Part) -> Result<Vec<u8>, AllocError>
    requires { IsShort part.now }
    ensures bytes { IfOk result (λ frame. frame.items ≡ frame_of part.now) }
    ensures fits { OnOk result (PartFits part.now) }
{
    let entry = Entry::Base {
        part: part.copy(alloc)?,
    };
    let frame = spelled(alloc, &entry);
    drop(entry);
    frame
}

// Adds the frame of a part.
fn add_frame(alloc: Global, frames: &mut Frames, part: &Part) -> Result<(), AllocError>
    requires { IsShort part.now }
    ensures added { OnOk result (frames.new ≡ frames.old ++ frame_of part.now ∷ []) }
    ensures fits { OnOk result (PartFits part.now) }
{
    let frame = part_frame(alloc, part)?;
    frames.push(alloc, &frame)
}

/// The frames of parts, in order: of each part the spelling of its entry.
pub fn frames_of(alloc: Global, parts: &[Part]) -> Result<Frames, AllocError>
    // The entry of each part has at most 65,536 bytes.
    requires { All IsShort parts.now }
    ensures frames { IfOk result (λ frames. frames ≡ frames_of parts.now) }
    ensures fit { OnOk result (All PartFits parts.now) }
{
    let mut frames = Frames::new(alloc)?;
    for part in parts {
        add_frame(alloc, &mut frames, part)?;
    }
    Ok(frames)
}
