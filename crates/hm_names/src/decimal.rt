ghost use Rattle.std.specs.Prelude.{◌≡◌, ◌≢◌, ℕ, ◌<◌, ◌≤◌, ◌^◌, IfSome, IfNone};
ghost use Rattle.std.specs.Fmt.{decimal};
ghost use Rattle.hm_names.specs.Decimal.{number_of, within};

use itoa::Buffer;
use std::str;

/// The number below 2^64 whose decimal these bytes are. A decimal has no leading zero except `0` itself.
pub fn parse_decimal(text: &[u8]) -> Option<u64>
    ensures number { result ≡ number_of text.now }
    ensures some { IfSome result (λ n. text.now ≡ decimal n) }
    ensures none { IfNone result ((n : ℕ) → n < 2 ^ 64 → text.now ≢ decimal n) }
{
    let Ok(digits) = str::from_utf8(text) else {
        return None;
    };
    let Ok(number) = digits.parse::<u64>() else {
        return None;
    };
    if Buffer::new().format(number) == digits {
        Some(number)
    } else {
        None
    }
}

// The number from `low` to `high` whose decimal these bytes are.
pub fn parse_within(low: u64, high: u64, text: &[u8]) -> Option<u64>
    ensures number { result ≡ within low high (number_of text.now) }
    ensures inside { IfSome result (λ n. (low ≤ n) × (n ≤ high)) }
{
    let number = parse_decimal(text)?;
    if low <= number && number <= high {
        Some(number)
    } else {
        None
    }
}
