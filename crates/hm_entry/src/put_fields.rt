ghost use Rattle.std.specs.Prelude.{◌≡◌, ◌+◌, ◌-◌, ◌^◌, ◌≤◌, ◌++◌, length, min};
ghost use Rattle.hm_entry.specs.Spelling.{byte};
ghost use Rattle.hm_wire.specs.Room.{HasRoom, Puts};

use crate::put::Put;
use hm_wire::put_byte;

// How long the spelling of a value is, with a byte in front.
pub(crate) fn length_of_one<A: Put>(first: &A) -> u64
    ensures { result ≡ min (1 + length (A.spell first.now)) (2 ^ 64 - 1) }
{
    first.length().saturating_add(1)
}

// Appends a value, with a byte in front.
pub(crate) fn put_one<A: Put>(kind: u8, first: &A, out: &mut Vec<u8>)
    requires spelled { A.spelled first.now }
    requires short { length (byte kind ++ A.spell first.now) ≤ 65536 }
    requires room { HasRoom out.old (length (byte kind ++ A.spell first.now)) }
    ensures put { Puts out.old (byte kind ++ A.spell first.now) out.new }
    ensures fits { A.fits first.now }
{
    put_byte(out, kind);
    first.put(out);
}

// How long the spelling of two values is, with a byte in front.
pub(crate) fn length_of_two<A: Put, B: Put>(first: &A, second: &B) -> u64
    ensures { result ≡ min (1 + length (A.spell first.now ++ B.spell second.now)) (2 ^ 64 - 1) }
{
    first
        .length()
        .saturating_add(second.length())
        .saturating_add(1)
}

// Appends two values, with a byte in front.
pub(crate) fn put_two<A: Put, B: Put>(kind: u8, first: &A, second: &B, out: &mut Vec<u8>)
    requires spelled { A.spelled first.now × B.spelled second.now }
    requires short { length (byte kind ++ (A.spell first.now ++ B.spell second.now)) ≤ 65536 }
    requires room { HasRoom out.old (length (byte kind ++ (A.spell first.now ++ B.spell second.now))) }
    ensures put { Puts out.old (byte kind ++ (A.spell first.now ++ B.spell second.now)) out.new }
    ensures fits { A.fits first.now × B.fits second.now }
{
    put_byte(out, kind);
    first.put(out);
    second.put(out);
}

// How long the spelling of three values is, with a byte in front.
pub(crate) fn length_of_three<A: Put, B: Put, C: Put>(first: &A, second: &B, third: &C) -> u64
    ensures { result ≡ min (1 + length (A.spell first.now ++ (B.spell second.now ++ C.spell third.now))) (2 ^ 64 - 1) }
{
    first
        .length()
        .saturating_add(second.length())
        .saturating_add(third.length())
        .saturating_add(1)
}

// Appends three values, with a byte in front.
pub(crate) fn put_three<A: Put, B: Put, C: Put>(
    kind: u8,
    first: &A,
    second: &B,
    third: &C,
    out: &mut Vec<u8>,
)
    requires spelled { A.spelled first.now × B.spelled second.now × C.spelled third.now }
    requires short { length (byte kind ++ (A.spell first.now ++ (B.spell second.now ++ C.spell third.now))) ≤ 65536 }
    requires room { HasRoom out.old (length (byte kind ++ (A.spell first.now ++ (B.spell second.now ++ C.spell third.now)))) }
    ensures put { Puts out.old (byte kind ++ (A.spell first.now ++ (B.spell second.now ++ C.spell third.now))) out.new }
    ensures fits { A.fits first.now × B.fits second.now × C.fits third.now }
{
    put_byte(out, kind);
    first.put(out);
    second.put(out);
    third.put(out);
}
