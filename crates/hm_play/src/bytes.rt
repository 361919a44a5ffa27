//! Bytes that are written as text.
use crate::fault::Fault;
use std::alloc::Global;

// The byte that two hexadecimal digits stand for.
fn byte(digits: &str) -> Result<u8, Fault> {
    u8::from_str_radix(digits, 16).map_err(|_| Fault::Unread)
}

/// Adds the bytes of a text. In it `%` and two digits stand for a byte.
pub fn add_plain(bytes: &mut Vec<u8>, text: &str) -> Result<(), Fault> {
    let mut pieces = text.split('%');
    if let Some(first) = pieces.next() {
        bytes.extend_from_slice(first.as_bytes())?;
    }
    for piece in pieces {
        let Some((digits, rest)) = piece.split_at_checked(2) else {
            return Err(Fault::Unread);
        };
        bytes.push(byte(digits)?)?;
        bytes.extend_from_slice(rest.as_bytes())?;
    }
    Ok(())
}

/// Adds the bytes that digits stand for, two each.
pub(crate) fn add_digits(bytes: &mut Vec<u8>, digits: &str) -> Result<(), Fault> {
    let mut rest = digits;
    for _ in 0..digits.len().div_ceil(2) {
        let Some((first, more)) = rest.split_at_checked(2) else {
            return Err(Fault::Unread);
        };
        bytes.push(byte(first)?)?;
        rest = more;
    }
    Ok(())
}

/// Adds a frame of a log: its gate, its length, and what it has.
pub(crate) fn add_frame(bytes: &mut Vec<u8>, gate: u8, frame: &[u8]) -> Result<(), Fault> {
    let Ok(length) = u32::try_from(frame.len()) else {
        return Err(Fault::Unread);
    };
    bytes.push(gate)?;
    bytes.extend_from_slice(&length.to_le_bytes())?;
    bytes.extend_from_slice(frame)?;
    Ok(())
}
