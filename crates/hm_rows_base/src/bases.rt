//! What frames are as a base.
ghost use Rattle.std.specs.Prelude.{◌≡◌, IfOk};
ghost use Rattle.hm_roll.specs.Parts.{Spells};

use crate::wholes::put_whole;
use hm_base::{BaseWhy, read_base};
use hm_data::Part;
use hm_log::Frames;
use hm_roll::{frames_of, parts_of};
use std::alloc::{AllocError, Global};

// The frames of parts that frames spell: the same.
fn respelled(alloc: Global, frames: &Frames, parts: &[Part]) -> Result<Frames, AllocError>
    requires { Spells frames.now parts.now }
    ensures { IfOk result (λ again. again ≡ frames.now) }
{
    let _count = frames.count();
    frames_of(alloc, parts)
}

// Whether all frames are the same.
fn are_same(frames: &Frames, others: &Frames) -> bool {
    if frames.count() != others.count() {
        return false;
    }
    for number in 0..frames.count() {
        if number >= others.count() || frames.frame(number) != others.frame(number) {
            return false;
        }
    }
    true
}

// Puts whether parts are a base.
fn put_parts(alloc: Global, parts: &[Part], out: &mut String) -> Result<(), AllocError> {
    match read_base(alloc, parts) {
        Ok(records) => {
            let put = put_whole(&records, parts, out);
            drop(records);
            put
        }
        Err(BaseWhy::Part(number)) => write!(out, "{number} of {}", parts.len()),
        Err(BaseWhy::Memory) => Err(AllocError),
    }
}

// Puts the same of parts that frames spell, and whether they spell other frames.
fn put_spelled(
    alloc: Global,
    frames: &Frames,
    parts: &[Part],
    out: &mut String,
) -> Result<(), AllocError>
    requires { Spells frames.now parts.now }
{
    let again = respelled(alloc, frames, parts)?;
    if !are_same(frames, &again) {
        out.push_str("other frames; ")?;
    }
    put_parts(alloc, parts, out)
}

/// Puts whether frames are a base, or which is no part of any.
pub fn put_base(alloc: Global, frames: &Frames, out: &mut String) -> Result<(), AllocError> {
    match parts_of(alloc, frames) {
        Ok(parts) => put_spelled(alloc, frames, parts.as_slice(), out),
        Err(why) => write!(out, "{why}"),
    }
}
