//! Ranges of rows that are cut and joined.
use hm_names::{KeyRange, NameFault, RowKey, Same};
use std::alloc::{AllocError, Global};

fn range(alloc: Global, start: &str, end: &str) -> Result<KeyRange, NameFault> {
    let start = RowKey::parse(alloc, start.as_bytes())?;
    let end = RowKey::parse(alloc, end.as_bytes())?;
    Ok(KeyRange { start, end })
}

fn put_range(range: &KeyRange, out: &mut String) -> Result<(), AllocError> {
    let start = &range.start;
    let end = &range.end;
    write!(out, "{start} {end}")
}

// Puts both parts of a range, and whether they overlap.
fn put_parts(low: &KeyRange, high: &KeyRange, out: &mut String) -> Result<(), AllocError> {
    put_range(low, out)?;
    out.push_str(", ")?;
    put_range(high, out)?;
    write!(out, ", overlap {}, joined ", low.overlaps(high))
}

// Puts what joins two ranges.
fn put_joined(low: KeyRange, high: KeyRange, out: &mut String) -> Result<(), AllocError> {
    if low.end.as_bytes().is_empty() || !low.end.same(&high.start) {
        return out.push_str("not");
    }
    let whole = low.join(high);
    put_range(&whole, out)
}

// Puts two parts, and what joins them.
fn put_both(low: KeyRange, high: KeyRange, out: &mut String) -> Result<(), AllocError> {
    put_parts(&low, &high, out)?;
    put_joined(low, high, out)
}

// Puts the parts of a range that is cut at a key.
fn put_cut_at(
    alloc: Global,
    whole: KeyRange,
    key: &RowKey,
    out: &mut String,
) -> Result<(), AllocError> {
    if !whole.inner(key) {
        return out.push_str("no inner key");
    }
    let (low, high) = whole.cut_at(alloc, key)?;
    put_both(low, high, out)
}

// The start, the end and the key of a line.
fn words_of(text: &str) -> Result<(&str, &str, &str), NameFault> {
    let (start, rest) = text.split_once(" ").ok_or(NameFault::Empty)?;
    let (end, key) = rest.split_once(" ").ok_or(NameFault::Empty)?;
    Ok((start, end, key))
}

/// Puts the parts of a range that is cut at a key: its start, its end, and the key.
pub fn put_cut(alloc: Global, words: &str, out: &mut String) -> Result<(), NameFault> {
    let (start, end, key) = words_of(words)?;
    let key = RowKey::parse(alloc, key.as_bytes())?;
    let whole = range(alloc, start, end)?;
    put_cut_at(alloc, whole, &key, out)?;
    Ok(())
}
