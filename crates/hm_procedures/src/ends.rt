//! What children ended with.
ghost use Rattle.std.specs.Prelude.{◌≡◌, ◌+◌, ◌<◌, ◌≤◌, ◌^◌, ◌++◌, IfOk, OnOk, length};
ghost use Rattle.hm_model.specs.Answers.{done_with as told_by};
ghost use Rattle.hm_model.specs.Phase.{end_of};
ghost use Rattle.hm_procedures.specs.Changes.{ends_in};

use crate::kept::{Tracked, done_with};
use hm_data::Told;
use hm_names::{List, Pid};
use std::alloc::{AllocError, Global};

// Adds what a procedure ended with, where it ended well.
fn push_end(ends: &mut Vec<(Pid, Told)>, pid: Pid, kept: &Tracked) -> Result<(), AllocError>
    ensures { OnOk result (ends.new.items ≡ ends.old.items ++ end_of pid.0 (told_by kept.now.last)) }
{
    if let Some(told) = done_with(&kept.last) {
        ends.push((pid, told))?;
    }
    Ok(())
}

// What those of so many procedures after a number ended with that ended well, where the first that is kept has the number after
// `low`.
pub(crate) fn ends_from(
    alloc: Global,
    low: u64,
    kept: &[Tracked],
    from: u64,
    count: u64,
) -> Result<List<(Pid, Told)>, AllocError>
    requires high { from + count ≤ low + length kept.now }
    requires low { 1 ≤ count → low ≤ from }
    requires small { from + count < 2 ^ 64 }
    ensures { IfOk result (λ ends. ends ≡ ends_in low kept.now from count) }
{
    let mut ends = Vec::new(alloc);
    for i in 0..count {
        let place = from + i - low;
        push_end(&mut ends, Pid(from + i + 1), &kept[place as usize])?;
    }
    Ok(List::of(ends))
}
