ghost use Rattle.std.specs.Prelude.{◌≡◌, ◌+◌, ◌<◌, ◌^◌, IfSome, length};
ghost use Rattle.hm_names.specs.Names.{part_fault as fault_of};

use crate::fault::NameFault;

// The fault of a part of a text. The part stands at a place, may have 1 to `most` bytes, and has
// its first wrong byte at `wrong`.
pub fn part_fault(most: usize, at: u64, part: &[u8], wrong: Option<usize>) -> Option<NameFault>
    requires fits { at + length part.now < 2 ^ 64 }
    requires inside { IfSome wrong (λ k. k < length part.now) }
    ensures { result ≡ fault_of most at part.now wrong }
{
    if part.is_empty() {
        Some(NameFault::Empty)
    } else if part.len() > most {
        Some(NameFault::TooLong(part.len() as u64))
    } else {
        match wrong {
            Some(k) => Some(NameFault::BadByte(at + k as u64)),
            None => None,
        }
    }
}
