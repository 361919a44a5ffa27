//! A lock book.
use crate::numbers::{halves, number};
use hm_lists::Steps;
use hm_locks::LockBook;
use hm_model::{Ask, Resource};
use hm_names::{List, NameFault, Ns, Pid, RegionName, ServerName, TableName};
use std::alloc::{AllocError, Global};
use std::sync::ledger::Ledger;

fn resource(alloc: Global, kind: &str, name: &[u8]) -> Result<Resource, NameFault> {
    Ok(match kind {
        "ns" => Resource::Ns(Ns::parse(alloc, name)?),
        "table" => Resource::Table(TableName::parse(alloc, name)?),
        "region" => Resource::Region(RegionName::parse(alloc, name)?),
        _ => Resource::Server(ServerName::parse(alloc, name)?),
    })
}

// The kind, the name and the mode of an ask.
fn words_of(text: &str) -> Result<(&str, &str, &str), NameFault> {
    let (kind, rest) = halves(text)?;
    let (name, mode) = halves(rest)?;
    Ok((kind, name, mode))
}

// An ask: a resource, and X where it is exclusive.
fn ask(alloc: Global, text: &str) -> Result<Ask, NameFault> {
    let (kind, name, mode) = words_of(text)?;
    let resource = resource(alloc, kind, name.as_bytes())?;
    let exclusive = mode == "X";
    Ok(Ask {
        resource,
        exclusive,
    })
}

// Asks, one after each semicolon.
fn asks(alloc: Global, text: &str) -> Result<List<Ask>, NameFault> {
    let mut asks = Vec::new(alloc);
    for item in text.split("; ") {
        let ask = ask(alloc, item)?;
        asks.push(ask).map_err(AllocError::from)?;
    }
    Ok(List::of(asks))
}

fn put_resource(resource: &Resource, out: &mut String) -> Result<(), AllocError> {
    match resource {
        Resource::Ns(ns) => write!(out, "ns {ns}"),
        Resource::Table(table) => write!(out, "table {table}"),
        Resource::Region(region) => write!(out, "region {region}"),
        Resource::Server(server) => write!(out, "server {server}"),
    }
}

fn put_asks(asked: &[Ask], out: &mut String) -> Result<(), AllocError> {
    for ask in asked {
        put_resource(&ask.resource, out)?;
        out.push_str(if ask.exclusive { " X;" } else { " S;" })?;
    }
    Ok(())
}

// Enlists a procedure that isn't there, below a parent that is.
fn enlist(
    alloc: Global,
    book: &mut LockBook,
    (pid, parent): (Pid, Option<Pid>),
    asked: List<Ask>,
) -> Result<bool, AllocError> {
    if book.lists(pid) {
        return Ok(false);
    }
    match parent {
        None => book.enlist(alloc, pid, None, asked)?,
        Some(parent) => {
            if !book.lists(parent) {
                return Ok(false);
            }
            book.enlist(alloc, pid, Some(parent), asked)?;
        }
    }
    Ok(true)
}

// Enlists a procedure that isn't there by its draft, and puts what that asks for.
fn put_draft(
    alloc: Global,
    book: &mut LockBook,
    (pid, parent): (Pid, Option<Pid>),
    asked: List<Ask>,
    out: &mut String,
) -> Result<(), AllocError> {
    if book.lists(pid) {
        return out.push_str("there already");
    }
    let draft = book.draft(alloc, parent, asked)?;
    put_asks(draft.asks(), out)?;
    book.reserve(alloc, 1, draft.asks().len() as u64)?;
    book.enlist_draft(pid, draft);
    Ok(())
}

/// Puts what becomes of a claim: the procedure isn't there, it takes what it asks for, or it stands behind another.
pub fn put_claim<L: Ledger>(
    book: &mut LockBook,
    text: &str,
    steps: &mut Steps<L>,
    out: &mut String,
) -> Result<(), NameFault> {
    let pid = Pid(number(text)?);
    put_claimed(book, pid, steps, out)?;
    Ok(())
}

fn put_claimed<L: Ledger>(
    book: &mut LockBook,
    pid: Pid,
    steps: &mut Steps<L>,
    out: &mut String,
) -> Result<(), AllocError> {
    if !book.lists(pid) {
        return out.push_str("missing");
    }
    if let Some(first) = book.first_conflict(pid, steps) {
        return write!(out, "behind {}", first.0);
    }
    book.take(pid);
    out.push_str("taken")
}

// Gives up what a procedure holds, or releases it, if it is there.
fn leave(book: &mut LockBook, verb: &str, pid: Pid) -> bool {
    let there = book.lists(pid);
    if there {
        if verb == "give-up" {
            book.give_up(pid);
        } else {
            book.release(pid);
        }
    }
    there
}

fn put_holders(alloc: Global, book: &LockBook, out: &mut String) -> Result<(), AllocError> {
    let mut holders = book.holders(alloc)?;
    holders.sort()?;
    for pid in &holders {
        write!(out, "{};", pid.0)?;
    }
    Ok(())
}

// A procedure's number, that of its parent or 0, and what it asks for.
fn newcomer(text: &str) -> Result<((u64, u64), &str), NameFault> {
    let (pid, rest) = halves(text)?;
    let (parent, asked) = halves(rest)?;
    Ok(((number(pid)?, number(parent)?), asked))
}

// Enlists a procedure, or puts its draft.
fn put_new(
    alloc: Global,
    book: &mut LockBook,
    verb: &str,
    text: &str,
    out: &mut String,
) -> Result<(), NameFault> {
    let ((pid, parent), asked) = newcomer(text)?;
    let parent = if parent == 0 { None } else { Some(Pid(parent)) };
    let asked = asks(alloc, asked)?;
    if verb == "enlist" {
        write!(out, "{}", enlist(alloc, book, (Pid(pid), parent), asked)?)?;
    } else {
        put_draft(alloc, book, (Pid(pid), parent), asked, out)?;
    }
    Ok(())
}

// Puts whether a procedure is there or holds what it asks for, and lets it go.
fn put_of(book: &mut LockBook, verb: &str, text: &str, out: &mut String) -> Result<(), NameFault> {
    let pid = Pid(number(text)?);
    let told = match verb {
        "holds" => book.holds(pid),
        "lists" => book.lists(pid),
        _ => leave(book, verb, pid),
    };
    write!(out, "{told}")?;
    Ok(())
}

/// Puts what a lock book answers.
pub fn put_book(
    alloc: Global,
    book: &mut LockBook,
    (verb, rest): (&str, &str),
    out: &mut String,
) -> Result<(), NameFault> {
    match verb {
        "enlist" | "draft" => return put_new(alloc, book, verb, rest, out),
        "give-up" | "release" | "holds" | "lists" => return put_of(book, verb, rest, out),
        "holders" => put_holders(alloc, book, out)?,
        _ => out.push_str("no such line")?,
    }
    Ok(())
}
