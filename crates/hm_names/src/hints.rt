//! Hints of names.
ghost use Rattle.std.specs.Prelude.{◌≡◌, ℕ, ◌+◌, ◌*◌, ◌<◌, ◌^◌, drop};
ghost use Rattle.hm_names.specs.Hints.{front};

/// The first 7 bytes as the digits of a number, after a byte that stands before them: names with the same byte before them have hints
/// that don't fall in the order of the names.
pub fn front_hint(before: u64, bytes: &[u8]) -> u64
    requires { before < 256 }
    ensures { result ≡ front 7 before bytes.now }
{
    let hint = with_byte(before, bytes, 0);
    let hint = with_byte(hint, bytes, 1);
    let hint = with_byte(hint, bytes, 2);
    let hint = with_byte(hint, bytes, 3);
    let hint = with_byte(hint, bytes, 4);
    let hint = with_byte(hint, bytes, 5);
    with_byte(hint, bytes, 6)
}

// A number with one byte more as its last digit, 0 for none.
fn with_byte(hint: u64, bytes: &[u8], at: usize) -> u64
    requires { hint < 2 ^ 56 }
    ensures bound { result < hint * 256 + 256 }
    ensures step { (n : ℕ) → front (n + 1) hint (drop at bytes.now) ≡ front n result (drop (at + 1) bytes.now) }
{
    match bytes.get(at) {
        Some(byte) => hint * 256 + *byte as u64,
        None => hint * 256,
    }
}
