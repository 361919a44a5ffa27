//! Ranges that are joined by one more at a time.
use hm_names::{KeyRange, NameFault, RowKey};
use hm_ranges::Ranges;
use std::alloc::{AllocError, Global};

// The range of a text: where it starts, a comma, and where it ends.
fn range(alloc: Global, text: &str) -> Result<KeyRange, NameFault> {
    let (start, end) = text.split_once(",").ok_or(NameFault::Empty)?;
    let start = RowKey::parse(alloc, start.as_bytes())?;
    let end = RowKey::parse(alloc, end.as_bytes())?;
    Ok(KeyRange { start, end })
}

// Adds a range, if it fits.
fn add(alloc: Global, ranges: &mut Ranges, range: KeyRange) -> Result<bool, AllocError> {
    if !ranges.fits(&range) {
        return Ok(false);
    }
    ranges.reserve(alloc, 1)?;
    ranges.add(range);
    Ok(true)
}

// Puts the least key that is left out.
fn put_left_out(alloc: Global, ranges: &Ranges, out: &mut String) -> Result<(), NameFault> {
    match ranges.least_left_out() {
        Some(key) => write!(out, "{}", RowKey::of(alloc, key)?)?,
        None => out.push_str("none")?,
    }
    Ok(())
}

// Puts whether a range fits, and the least key that is left out then.
fn put_added(
    alloc: Global,
    ranges: &mut Ranges,
    text: &str,
    out: &mut String,
) -> Result<(), NameFault> {
    let range = range(alloc, text)?;
    let is_in = add(alloc, ranges, range)?;
    out.push_str(if is_in { "in " } else { "not " })?;
    put_left_out(alloc, ranges, out)
}

/// Puts the same of each of some ranges, one after another.
pub fn put_ranges(alloc: Global, words: &str, out: &mut String) -> Result<(), NameFault> {
    let mut ranges = Ranges::new(alloc)?;
    let before = out.len();
    for word in words.split(' ') {
        if out.len() > before {
            out.push_str("; ")?;
        }
        put_added(alloc, &mut ranges, word, out)?;
    }
    Ok(())
}
