//! Linked lists by index.
use crate::numbers::{number, two_numbers};
use hm_lists::{Lists, Steps};
use hm_names::NameFault;
use std::alloc::{AllocError, Global};
use std::sync::ledger::Ledger;

// Puts a node that is in no list after the last of a list.
fn push<L: Ledger>(
    alloc: Global,
    lists: &mut Lists,
    (list, node): (u8, u8),
    steps: &mut Steps<L>,
) -> Result<bool, AllocError> {
    let (list, node) = (u32::from(list), u32::from(node));
    lists.reserve_lists(alloc, list + 1)?;
    lists.reserve_nodes(alloc, node + 1)?;
    if lists.list_of(node).is_some() {
        return Ok(false);
    }
    lists.push_back(list, node, steps);
    Ok(true)
}

fn pop<L: Ledger>(
    alloc: Global,
    lists: &mut Lists,
    list: u8,
    steps: &mut Steps<L>,
) -> Result<Option<u32>, AllocError> {
    let list = u32::from(list);
    lists.reserve_lists(alloc, list + 1)?;
    Ok(lists.pop_front(list, steps))
}

// Takes a node out of its list, if it is in one.
fn unlink<L: Ledger>(lists: &mut Lists, node: u8, steps: &mut Steps<L>) -> bool {
    let node = u32::from(node);
    let held = lists.list_of(node).is_some();
    if held {
        lists.unlink(node, steps);
    }
    held
}

// Puts the nodes of a list, from the first on.
fn put_nodes(
    alloc: Global,
    lists: &mut Lists,
    list: u8,
    out: &mut String,
) -> Result<(), AllocError> {
    let list = u32::from(list);
    lists.reserve_lists(alloc, list + 1)?;
    for node in lists.iter(list) {
        write!(out, "{node};")?;
    }
    Ok(())
}

fn small(number: u64) -> Result<u8, NameFault> {
    u8::try_from(number).or(Err(NameFault::BadNumber(2)))
}

// The list and the node of a line.
fn place(text: &str) -> Result<(u8, u8), NameFault> {
    let (list, node) = two_numbers(text)?;
    Ok((small(list)?, small(node)?))
}

// Puts what becomes of a node that is put after the last of a list.
fn put_push<L: Ledger>(
    alloc: Global,
    lists: &mut Lists,
    text: &str,
    steps: &mut Steps<L>,
    out: &mut String,
) -> Result<(), NameFault> {
    let place = place(text)?;
    let is_new = push(alloc, lists, place, steps)?;
    write!(out, "{is_new}")?;
    Ok(())
}

// Puts the node or the list that is found.
fn put_found(found: Option<u32>, out: &mut String) -> Result<(), AllocError> {
    write!(out, "{found:?}")
}

// Puts what becomes of a list or a node, or what is told of it.
fn put_told<L: Ledger>(
    alloc: Global,
    lists: &mut Lists,
    (verb, number): (&str, u8),
    steps: &mut Steps<L>,
    out: &mut String,
) -> Result<(), AllocError> {
    match verb {
        "pop" => put_found(pop(alloc, lists, number, steps)?, out),
        "unlink" => write!(out, "{}", unlink(lists, number, steps)),
        "nodes" => put_nodes(alloc, lists, number, out),
        _ => put_found(lists.list_of(u32::from(number)), out),
    }
}

/// Puts what lists answer.
pub fn put_list<L: Ledger>(
    alloc: Global,
    lists: &mut Lists,
    text: &str,
    steps: &mut Steps<L>,
    out: &mut String,
) -> Result<(), NameFault> {
    let (verb, rest) = text.split_once(" ").unwrap_or((text, ""));
    if verb == "push" {
        return put_push(alloc, lists, rest, steps, out);
    }
    let number = small(number(rest)?)?;
    put_told(alloc, lists, (verb, number), steps, out)?;
    Ok(())
}
