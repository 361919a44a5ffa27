ghost use Rattle.std.specs.Prelude.{◌≡◌, ◌-◌, ◌^◌, ◌≤◌, length, min};
ghost use Rattle.hm_entry.specs.Fits.{EntryFits, EntryIsSpelled};
ghost use Rattle.hm_entry.specs.Spelling.{entry as entry_text};
ghost use Rattle.hm_wire.specs.Room.{HasRoom, Puts};

use crate::put::Put;
use hm_data::Entry;

/// How many bytes the spelling of an entry has, or the greatest number where it has more.
pub fn length(entry: &Entry) -> u64
    ensures { result ≡ min (length (entry_text entry.now)) (2 ^ 64 - 1) }
{
    Put::length(entry)
}

/// Appends the spelling of an entry. It takes no memory.
pub fn encode_into(entry: &Entry, out: &mut Vec<u8>)
    // Each procedure that a step makes is of a kind that has a spelling.
    requires spelled { EntryIsSpelled entry.now }
    requires short { length (entry_text entry.now) ≤ 65536 }
    requires room { HasRoom out.old (length (entry_text entry.now)) }
    ensures put { Puts out.old (entry_text entry.now) out.new }
    ensures fits { EntryFits entry.now }
{
    entry.put(out);
}
