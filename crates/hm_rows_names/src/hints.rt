//! Hints, and the order of names.
use hm_data::CatKey;
use hm_hints::Hinted;
use hm_names::{
    NameFault, Nonce, Pid, RegionName, ServerName, TableName, front_hint, parse_decimal,
};
use std::alloc::Global;

fn number(word: &str) -> Result<u64, NameFault> {
    parse_decimal(word.as_bytes()).ok_or(NameFault::BadNumber(0))
}

/// Puts the hint of a byte and the first bytes of a text.
pub fn put_front_hint(byte: &str, text: &str, out: &mut String) -> Result<(), NameFault> {
    let byte = u8::try_from(number(byte)?).or(Err(NameFault::BadNumber(1)))?;
    let hint = front_hint(u64::from(byte), text.as_bytes());
    write!(out, "{hint:016x}")?;
    Ok(())
}

// The key of a table or of a region.
fn key(alloc: Global, kind: &str, text: &str) -> Result<CatKey, NameFault> {
    Ok(match kind {
        "table" => CatKey::Table(TableName::parse(alloc, text.as_bytes())?),
        _ => CatKey::Region(RegionName::parse(alloc, text.as_bytes())?),
    })
}

fn nonce_hint(alloc: Global, text: &str) -> Result<u64, NameFault> {
    let nonce = Nonce::parse(alloc, text.as_bytes())?;
    Ok(nonce.own_hint())
}

fn key_hint(alloc: Global, kind: &str, text: &str) -> Result<u64, NameFault> {
    let key = key(alloc, kind, text)?;
    Ok(key.own_hint())
}

/// Puts the own hint of what a text names.
pub fn put_own_hint(
    alloc: Global,
    kind: &str,
    text: &str,
    out: &mut String,
) -> Result<(), NameFault> {
    let hint = match kind {
        "pid" => Pid(number(text)?).own_hint(),
        "nonce" => nonce_hint(alloc, text)?,
        _ => key_hint(alloc, kind, text)?,
    };
    write!(out, "{hint:016x}")?;
    Ok(())
}

fn servers_rise(alloc: Global, one: &str, other: &str) -> Result<bool, NameFault> {
    let one = ServerName::parse(alloc, one.as_bytes())?;
    let other = ServerName::parse(alloc, other.as_bytes())?;
    Ok(one < other)
}

fn keys_rise(
    alloc: Global,
    (kind, one): (&str, &str),
    (other_kind, other): (&str, &str),
) -> Result<bool, NameFault> {
    let one = key(alloc, kind, one)?;
    let other = key(alloc, other_kind, other)?;
    Ok(one < other)
}

// Whether the first of two names of these kinds is less.
fn rise(alloc: Global, one: (&str, &str), other: (&str, &str)) -> Result<bool, NameFault> {
    if one.0 == "server" {
        servers_rise(alloc, one.1, other.1)
    } else {
        keys_rise(alloc, one, other)
    }
}

// The kind and the text of a name.
fn named(text: &str) -> Result<(&str, &str), NameFault> {
    text.split_once("=").ok_or(NameFault::Empty)
}

/// Puts whether the first of two names is less.
pub fn put_less(alloc: Global, words: &str, out: &mut String) -> Result<(), NameFault> {
    let (one, other) = words.split_once(" ").ok_or(NameFault::Empty)?;
    let less = rise(alloc, named(one)?, named(other)?)?;
    write!(out, "{less}")?;
    Ok(())
}
