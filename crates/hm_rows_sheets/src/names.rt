//! Names of a case, and lists of them.
use crate::words::number;
use hm_names::{List, Ns, RegionName, RowKey, ServerName, TableName, parse_decimal};
use std::alloc::AllocGlobal;
use std::process::Abort;

/// What stands before the first of some marks and behind it. Where there is none all stands before it.
pub fn cut<'a>(text: &'a str, mark: &str) -> (&'a str, &'a str) {
    match text.split_once(mark) {
        Some(parts) => parts,
        None => (text, ""),
    }
}

/// The first word, and the others.
pub fn first_word(words: &str) -> (&str, &str) {
    cut(words, " ")
}

pub fn ns(rt: &(impl Abort + AllocGlobal), word: &str) -> Ns {
    Ns::parse(rt.alloc(), word.as_bytes()).expect(rt, "a namespace")
}

pub fn table(rt: &(impl Abort + AllocGlobal), word: &str) -> TableName {
    TableName::parse(rt.alloc(), word.as_bytes()).expect(rt, "a table")
}

pub fn region(rt: &(impl Abort + AllocGlobal), word: &str) -> RegionName {
    RegionName::parse(rt.alloc(), word.as_bytes()).expect(rt, "a region")
}

pub fn server(rt: &(impl Abort + AllocGlobal), word: &str) -> ServerName {
    ServerName::parse(rt.alloc(), word.as_bytes()).expect(rt, "a server")
}

/// A key, and the empty one for a lone star.
pub fn key(rt: &(impl Abort + AllocGlobal), word: &str) -> RowKey {
    let text = if word == "*" { r"\-" } else { word };
    RowKey::parse(rt.alloc(), text.as_bytes()).expect(rt, "a key")
}

/// A server, if it is told.
pub fn perhaps_server(rt: &(impl Abort + AllocGlobal), word: &str) -> Option<ServerName> {
    if word.is_empty() {
        return None;
    }
    Some(server(rt, word))
}

// The ends of a run of numbers, as `1..64`.
fn run(word: &str) -> Option<(u64, u64)> {
    let (first, last) = cut(word, "..");
    Some((
        parse_decimal(first.as_bytes())?,
        parse_decimal(last.as_bytes())?,
    ))
}

// A key of three digits.
fn number_key(rt: &(impl Abort + AllocGlobal), number: u64) -> RowKey {
    let text = format!(in rt.alloc(); "{number:03}").expect(rt, "memory");
    let key = key(rt, &text);
    drop(text);
    key
}

/// Keys, where a run stands for numbers of three digits.
pub fn keys(rt: &(impl Abort + AllocGlobal), words: &str) -> List<RowKey> {
    let mut keys = Vec::new(rt.alloc());
    for word in words.split(' ') {
        if let Some((first, last)) = run(word) {
            for number in first..=last {
                keys.push(number_key(rt, number)).expect(rt, "memory");
            }
        } else if !word.is_empty() {
            keys.push(key(rt, word)).expect(rt, "memory");
        }
    }
    List::of(keys)
}

pub fn regions(rt: &(impl Abort + AllocGlobal), words: &str) -> List<RegionName> {
    let mut regions = Vec::new(rt.alloc());
    for word in words.split(' ') {
        regions.push(region(rt, word)).expect(rt, "memory");
    }
    List::of(regions)
}

/// Numbers, and runs of them.
pub fn ids(rt: &(impl Abort + AllocGlobal), words: &str) -> List<u64> {
    let mut ids = Vec::new(rt.alloc());
    for word in words.split(' ') {
        if let Some((first, last)) = run(word) {
            for id in first..=last {
                ids.push(id).expect(rt, "memory");
            }
        } else if !word.is_empty() {
            ids.push(number(rt, word)).expect(rt, "memory");
        }
    }
    List::of(ids)
}
