//! Texts of names: what each names, what is written of it, and the bytes of its parts.
use hm_names::{Host, NameFault, Nonce, Ns, Qualifier, RegionName, RowKey, ServerName, TableName};
use std::alloc::{AllocError, Global};
use std::fmt::Display;

// Puts a name, if there is one.
fn put_name<T: Display + Drop>(
    name: Result<T, NameFault>,
    out: &mut String,
) -> Result<(), NameFault> {
    let name = name?;
    write!(out, "{name}")?;
    Ok(())
}

/// Puts the name that a text spells.
pub fn put_parsed(
    alloc: Global,
    kind: &str,
    text: &[u8],
    out: &mut String,
) -> Result<(), NameFault> {
    match kind {
        "namespace" => put_name(Ns::parse(alloc, text), out),
        "table" => put_name(TableName::parse(alloc, text), out),
        "region" => put_name(RegionName::parse(alloc, text), out),
        "server" => put_name(ServerName::parse(alloc, text), out),
        "nonce" => put_name(Nonce::parse(alloc, text), out),
        _ => put_name(RowKey::parse(alloc, text), out),
    }
}

// Writes what is catalogued. For a namespace the text is that of a table in it.
fn write_catalogued(
    alloc: Global,
    kind: &str,
    text: &[u8],
    out: &mut Vec<u8>,
) -> Result<(), NameFault> {
    let written = match kind {
        "namespace" => TableName::parse(alloc, text)?.ns.write(alloc, out),
        "table" => TableName::parse(alloc, text)?.write(alloc, out),
        _ => RegionName::parse(alloc, text)?.write(alloc, out),
    };
    written?;
    Ok(())
}

// Writes another name.
fn write_other(alloc: Global, kind: &str, text: &[u8], out: &mut Vec<u8>) -> Result<(), NameFault> {
    let written = match kind {
        "server" => ServerName::parse(alloc, text)?.write(alloc, out),
        "nonce" => Nonce::parse(alloc, text)?.write(alloc, out),
        _ => RowKey::parse(alloc, text)?.write(alloc, out),
    };
    written?;
    Ok(())
}

fn write_name(alloc: Global, kind: &str, text: &[u8], out: &mut Vec<u8>) -> Result<(), NameFault> {
    match kind {
        "namespace" | "table" | "region" => write_catalogued(alloc, kind, text, out),
        _ => write_other(alloc, kind, text, out),
    }
}

fn put_chars(bytes: &[u8], out: &mut String) -> Result<(), AllocError> {
    for byte in bytes {
        out.push(char::from(*byte))?;
    }
    Ok(())
}

/// Puts what is written of a name after a byte that was there, as text.
pub fn put_written(
    alloc: Global,
    kind: &str,
    text: &[u8],
    out: &mut String,
) -> Result<(), NameFault> {
    let mut written = Vec::from_slice(alloc, b">")?;
    write_name(alloc, kind, text, &mut written)?;
    put_chars(&written, out)?;
    Ok(())
}

fn put_all(bytes: &[u8], out: &mut String) -> Result<(), AllocError> {
    write!(out, "{bytes:?}")
}

// Puts the bytes of a part of a name that is made of them.
fn put_part(alloc: Global, kind: &str, bytes: &[u8], out: &mut String) -> Result<(), NameFault> {
    let put = match kind {
        "namespace" => put_all(Ns::of(alloc, bytes)?.as_bytes(), out),
        "qualifier" => put_all(Qualifier::of(alloc, bytes)?.as_bytes(), out),
        _ => put_all(Host::of(alloc, bytes)?.as_bytes(), out),
    };
    put?;
    Ok(())
}

fn put_nonce(alloc: Global, text: &[u8], out: &mut String) -> Result<(), NameFault> {
    let Nonce { group, number } = Nonce::parse(alloc, text)?;
    write!(out, "{group} {number}")?;
    Ok(())
}

fn put_key(alloc: Global, text: &[u8], out: &mut String) -> Result<(), NameFault> {
    let spelled = RowKey::parse(alloc, text)?;
    let key = RowKey::of(alloc, spelled.as_bytes())?;
    put_all(key.as_bytes(), out)?;
    Ok(())
}

/// Puts the bytes of a name that is made of them, or the numbers of a nonce. A key is spelled.
pub fn put_bytes(
    alloc: Global,
    kind: &str,
    bytes: &[u8],
    out: &mut String,
) -> Result<(), NameFault> {
    match kind {
        "namespace" | "qualifier" | "host" => put_part(alloc, kind, bytes, out),
        "nonce" => put_nonce(alloc, bytes, out),
        _ => put_key(alloc, bytes, out),
    }
}
