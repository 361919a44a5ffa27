//! An index.
use crate::numbers::{number, two_numbers};
use hm_index::Index;
use hm_names::NameFault;
use std::alloc::{AllocError, Global};

// Puts the pairs from a key on.
fn put_from(index: &Index<u64, u64>, key: u64, out: &mut String) -> Result<(), AllocError> {
    for (key, value) in index.iter_from(&key) {
        write!(out, "{key} {value};")?;
    }
    Ok(())
}

// Gives a key that is there another value.
fn change(index: &mut Index<u64, u64>, key: u64, value: u64) -> bool {
    let there = index.get(&key).is_some();
    if there {
        index.change(&key, value);
    }
    there
}

// Whether a pair is told by its key, by its number in the view, and as the first from its key on.
fn is_found(index: &Index<u64, u64>, number: usize, pair: &(u64, u64)) -> bool {
    index.get(&pair.0) == Some(&pair.1)
        && index.view().get(number) == Some(pair)
        && index.iter_from(&pair.0).next() == Some(pair)
}

// Puts how many pairs there are, and how many of them are found and stand after a lesser key.
fn put_walk(index: &Index<u64, u64>, out: &mut String) -> Result<(), AllocError> {
    let view = index.view();
    let mut number: usize = 0;
    let mut right: usize = 0;
    let mut last = None;
    for pair in view.iter() {
        if last < Some(pair.0) && is_found(index, number, pair) {
            right = right.wrapping_add(1);
        }
        last = Some(pair.0);
        number = number.wrapping_add(1);
    }
    let none = view.get(number).is_none();
    write!(
        out,
        "{} pairs, {right} found, none behind {none}",
        view.len()
    )
}

// Puts what an index tells of all its pairs.
fn put_whole(index: &Index<u64, u64>, verb: &str, out: &mut String) -> Result<(), AllocError> {
    if verb == "walk" {
        return put_walk(index, out);
    }
    write!(out, "{}", index.view().is_empty())
}

// Puts the pair of a number.
fn put_numbered(index: &Index<u64, u64>, number: u64, out: &mut String) -> Result<(), AllocError> {
    match u32::try_from(number) {
        Ok(number) => write!(out, "{:?}", index.pair(number)),
        Err(_) => out.push_str("no such number"),
    }
}

// Puts what an index tells of a number: the value of a key, the pair of a number, or the pairs from a key on.
fn put_told(
    index: &Index<u64, u64>,
    verb: &str,
    number: u64,
    out: &mut String,
) -> Result<(), AllocError> {
    match verb {
        "get" => write!(out, "{:?}", index.get(&number)),
        "pair" => put_numbered(index, number, out),
        _ => put_from(index, number, out),
    }
}

// Puts what becomes of a key and a value.
fn put_pair(
    alloc: Global,
    index: &mut Index<u64, u64>,
    verb: &str,
    (key, value): (u64, u64),
    out: &mut String,
) -> Result<(), AllocError> {
    if verb == "change" {
        return write!(out, "{}", change(index, key, value));
    }
    index.reserve(alloc, 1)?;
    write!(out, "{}", index.put(key, value))
}

/// Puts what an index tells, or what becomes of a pair.
pub fn put_index(
    alloc: Global,
    index: &mut Index<u64, u64>,
    text: &str,
    out: &mut String,
) -> Result<(), NameFault> {
    let (verb, rest) = text.split_once(" ").unwrap_or((text, ""));
    let put = match verb {
        "empty" | "walk" => put_whole(index, verb, out),
        "put" | "change" => put_pair(alloc, index, verb, two_numbers(rest)?, out),
        _ => put_told(index, verb, number(rest)?, out),
    };
    put?;
    Ok(())
}
