//! Copies of names, and of what holds them.
use hm_names::{
    Copied, KeyRange, List, NameFault, Nonce, Pid, RegionName, RowKey, Same, ServerName, TableName,
};
use std::alloc::{AllocError, Global};

// Whether a value's copy is the value.
fn copies<T: Copied + Same + Drop>(alloc: Global, value: &T) -> Result<bool, AllocError> {
    let copy = value.copy(alloc)?;
    Ok(copy.same(value))
}

// Whether the copies of two values are these.
fn both_copy<T: Copied + Same + Drop, U: Copied + Same + Drop>(
    alloc: Global,
    one: &T,
    other: &U,
) -> Result<bool, AllocError> {
    let same = copies(alloc, one)?;
    Ok(copies(alloc, other)? && same)
}

// Whether a server's name and its host copy.
fn server_copies(alloc: Global, text: &[u8]) -> Result<bool, NameFault> {
    let server = ServerName::parse(alloc, text)?;
    Ok(both_copy(alloc, &server, &server.host)?)
}

fn table_copies(alloc: Global, table: &TableName) -> Result<bool, AllocError> {
    let same = copies(alloc, table)?;
    Ok(both_copy(alloc, &table.ns, &table.qualifier)? && same)
}

// Whether each part of a region's name copies.
fn region_copies(alloc: Global, text: &[u8]) -> Result<bool, NameFault> {
    let region = RegionName::parse(alloc, text)?;
    let same = copies(alloc, &region)?;
    Ok(table_copies(alloc, &region.table)? && same)
}

// Whether the range from a key on to the same key copies.
fn range_copies(alloc: Global, start: RowKey) -> Result<bool, AllocError> {
    let end = start.copy(alloc)?;
    copies(alloc, &KeyRange { start, end })
}

// Whether a key copies, and the range from it on.
fn key_copies(alloc: Global, text: &[u8]) -> Result<bool, NameFault> {
    let start = RowKey::parse(alloc, text)?;
    let same = copies(alloc, &start)?;
    Ok(range_copies(alloc, start)? && same)
}

// Whether a list of these copies, and gives them back.
fn list_copies(alloc: Global, items: &[(Option<u64>, u64)]) -> Result<bool, AllocError> {
    let list = List::of(Vec::from_slice(alloc, items)?);
    let copy = list.copy(alloc)?;
    let same = copy.same(&list) && copy.as_slice().len() == items.len();
    let given = copy.into_vec().len();
    Ok(same && given == items.len())
}

// Whether numbers, none, a list, and a fault copy.
fn plain_copies(alloc: Global) -> Result<bool, AllocError> {
    let none: Option<u64> = None;
    let numbers = both_copy(alloc, &Pid(7), &none)?;
    let fault = copies(alloc, &NameFault::BadByte(7))?;
    let list = list_copies(alloc, &[(Some(7), 8), (Some(7), 8)])?;
    Ok(numbers && fault && list)
}

fn nonce_copies(alloc: Global, text: &[u8]) -> Result<bool, NameFault> {
    let nonce = Nonce::parse(alloc, text)?;
    Ok(copies(alloc, &nonce)?)
}

// Whether the copy of what a text names is the same, and those of its parts.
fn is_copied(alloc: Global, kind: &str, text: &[u8]) -> Result<bool, NameFault> {
    match kind {
        "server" => server_copies(alloc, text),
        "region" => region_copies(alloc, text),
        "key" => key_copies(alloc, text),
        "nonce" => nonce_copies(alloc, text),
        _ => Ok(plain_copies(alloc)?),
    }
}

/// Puts whether the copy of what a text names is the same, and those of its parts.
pub fn put_copy(alloc: Global, kind: &str, text: &[u8], out: &mut String) -> Result<(), NameFault> {
    let same = is_copied(alloc, kind, text)?;
    write!(out, "{same}")?;
    Ok(())
}
