//! What procedures of a lock book do: claim what they ask for, give it up, and go.
use crate::work::first_word;
use hm_lists::Steps;
use hm_locks::LockBook;
use hm_names::{Pid, parse_decimal};
use std::alloc::{AllocError, AllocGlobal};
use std::process::Abort;
use std::sync::ledger::Ledger;

// Claims what a procedure asks for, and takes it if nobody stands in the way.
fn claim<L: Ledger>(book: &mut LockBook, pid: Pid, steps: &mut Steps<L>) -> Option<Pid> {
    if !book.lists(pid) {
        return Some(Pid(0));
    }
    let first = book.first_conflict(pid, steps);
    if first.is_none() {
        book.take(pid);
    }
    first
}

// What became of a claim: the procedure isn't enlisted, it took what it asks for, or it stands behind the one that is told.
fn put_claimed(out: &mut String, first: Option<Pid>) -> Result<(), AllocError> {
    match first {
        None => out.push_str("taken"),
        Some(Pid(0)) => out.push_str("missing"),
        Some(Pid(first)) => write!(out, "behind {first}"),
    }
}

// A procedure that is enlisted gives up what it holds.
fn give_up(book: &mut LockBook, pid: Pid) -> bool {
    let listed = book.lists(pid);
    if listed {
        book.give_up(pid);
    }
    listed
}

// A procedure is enlisted no longer, if it was.
fn release(book: &mut LockBook, pid: Pid) -> bool {
    let listed = book.lists(pid);
    if listed {
        book.release(pid);
    }
    listed
}

// Puts what became of a deed, or whether a procedure holds.
fn put_deed<L: Ledger>(
    book: &mut LockBook,
    (verb, pid): (&str, u64),
    steps: &mut Steps<L>,
    out: &mut String,
) -> Result<(), AllocError> {
    match verb {
        "claim" => put_claimed(out, claim(book, Pid(pid), steps)),
        "give-up" => write!(out, "{}", give_up(book, Pid(pid))),
        "release" => write!(out, "{}", release(book, Pid(pid))),
        _ => write!(out, "{}", book.holds(Pid(pid))),
    }
}

// Puts the procedures that hold.
fn put_holders(rt: &(impl Abort + AllocGlobal), book: &LockBook, out: &mut String) {
    let mut holders = book.holders(rt.alloc()).expect(rt, "memory");
    holders.sort().expect(rt, "memory");
    for pid in holders.as_slice() {
        write!(out, " {}", pid.0).expect(rt, "memory");
    }
    drop(holders);
}

/// What became of a deed, and who holds then.
pub fn done<L: Ledger>(
    rt: &(impl Abort + AllocGlobal),
    book: &mut LockBook,
    deed: &str,
    steps: &mut Steps<L>,
) -> Result<String, AllocError> {
    let (verb, word) = first_word(deed);
    let pid = parse_decimal(word.as_bytes()).expect(rt, "a procedure");
    let mut text = String::new(rt.alloc());
    put_deed(book, (verb, pid), steps, &mut text).expect(rt, "memory");
    text.push_str(":").expect(rt, "memory");
    put_holders(rt, book, &mut text);
    Ok(text)
}
