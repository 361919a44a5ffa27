ghost use Rattle.std.specs.Prelude.{◌≤◌, IfOk};
ghost use Rattle.hm_entry.specs.Reading.{Gives, GivesBy, byte_at, u16_at, u64_at, text_of, id_at, port_at, flag_at};

use crate::fault::EntryFault;
use hm_wire::{Reader, WireFault};

// A number in one byte.
#[tactic(auto, unfolding(crate::specs::Reading::byte_at))]
pub(crate) fn byte(r: &mut Reader) -> Result<u8, EntryFault>
    ensures { Gives result (byte_at r.old) r.new }
{
    match r.byte() {
        Ok(value) => Ok(value),
        Err(WireFault::Short(place)) => Err(EntryFault::Short(place)),
        Err(WireFault::Range(place)) => Err(EntryFault::Field(place)),
    }
}

#[tactic(auto, unfolding(crate::specs::Reading::u16_at))]
pub(crate) fn u16(r: &mut Reader) -> Result<u16, EntryFault>
    ensures { Gives result (u16_at r.old) r.new }
{
    match r.u16() {
        Ok(value) => Ok(value),
        Err(WireFault::Short(place)) => Err(EntryFault::Short(place)),
        Err(WireFault::Range(place)) => Err(EntryFault::Field(place)),
    }
}

#[tactic(auto, unfolding(crate::specs::Reading::u64_at))]
pub(crate) fn u64(r: &mut Reader) -> Result<u64, EntryFault>
    ensures { Gives result (u64_at r.old) r.new }
{
    match r.u64() {
        Ok(value) => Ok(value),
        Err(WireFault::Short(place)) => Err(EntryFault::Short(place)),
        Err(WireFault::Range(place)) => Err(EntryFault::Field(place)),
    }
}

// A text of `most` bytes at most.
#[tactic(auto, unfolding(crate::specs::Reading::text_of))]
pub(crate) fn text<'a>(r: &mut Reader<'a>, most: u16) -> Result<&'a [u8], EntryFault>
    ensures { GivesBy (λ x. x.now) result (text_of most r.old) r.new }
{
    match r.text(most) {
        Ok(value) => Ok(value),
        Err(WireFault::Short(place)) => Err(EntryFault::Short(place)),
        Err(WireFault::Range(place)) => Err(EntryFault::Field(place)),
    }
}

// The number of a region, or a start code.
#[tactic(auto, unfolding(crate::specs::Reading::id_at))]
pub(crate) fn id(r: &mut Reader) -> Result<u64, EntryFault>
    ensures read { Gives result (id_at r.old) r.new }
    ensures from_one { IfOk result (λ n. 1 ≤ n) }
{
    let at = r.at();
    let n = u64(r)?;
    if n == 0 {
        return Err(EntryFault::Field(at));
    }
    Ok(n)
}

#[tactic(auto, unfolding(crate::specs::Reading::port_at))]
pub(crate) fn port(r: &mut Reader) -> Result<u16, EntryFault>
    ensures read { Gives result (port_at r.old) r.new }
    ensures from_one { IfOk result (λ n. 1 ≤ n) }
{
    let at = r.at();
    let n = u16(r)?;
    if n == 0 {
        return Err(EntryFault::Field(at));
    }
    Ok(n)
}

#[tactic(auto, unfolding(crate::specs::Reading::flag_at))]
pub(crate) fn flag(r: &mut Reader) -> Result<bool, EntryFault>
    ensures { Gives result (flag_at r.old) r.new }
{
    let at = r.at();
    match byte(r)? {
        0 => Ok(false),
        1 => Ok(true),
        _ => Err(EntryFault::Field(at)),
    }
}
