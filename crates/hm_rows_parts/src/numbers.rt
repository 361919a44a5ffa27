//! Numbers of a line, and items that are put at places.
use hm_index::put_at;
use hm_names::{NameFault, parse_decimal};

pub fn number(word: &str) -> Result<u64, NameFault> {
    parse_decimal(word.as_bytes()).ok_or(NameFault::BadNumber(0))
}

/// The front of a text up to a space, and what follows it.
pub fn halves(text: &str) -> Result<(&str, &str), NameFault> {
    text.split_once(" ").ok_or(NameFault::Empty)
}

/// The two numbers of a text.
pub fn two_numbers(text: &str) -> Result<(u64, u64), NameFault> {
    let (one, other) = text.split_once(" ").ok_or(NameFault::BadNumber(1))?;
    Ok((number(one)?, number(other)?))
}

/// Puts an item at a place, if there is one, and then all items.
pub fn put(items: &mut Vec<u64>, text: &str, out: &mut String) -> Result<(), NameFault> {
    let (place, item) = two_numbers(text)?;
    let place = place as usize;
    items.reserve(1)?;
    if place <= items.len() {
        put_at(items, place, item);
    }
    write!(out, "{items:?}")?;
    Ok(())
}
