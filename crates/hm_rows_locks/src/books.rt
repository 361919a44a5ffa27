//! Lock books by their calls, where procedures are enlisted by what they ask for or by drafts of it.
ghost use Rattle.std.specs.Prelude.{◌≡◌, ◌≤◌, IfSome, IsTrue};
ghost use Rattle.hm_locks.specs.Book.{IsEnlisted};

use crate::asking::lines;
use crate::deeds::done;
use crate::texts::is_told;
use crate::work::{first_word, ns, region, table};
use hm_lists::Steps;
use hm_locks::LockBook;
use hm_model::{Ask, Resource};
use hm_names::{List, Pid};
use std::alloc::AllocGlobal;
use std::marker::Brand;
use std::process::Abort;
use std::sync::ledger::{Blank, Ledger};

// What each procedure asks for: 1 makes table a, 2 makes table b, 3 drops the namespace of both, 4 opens the first region
// of a and is a child of 1, 5 moves this region.
const ASKED: &[(u64, &str)] = &[
    (1, "ns default S;table a X;"),
    (2, "ns default S;table b X;"),
    (3, "ns default X;"),
    (4, "ns default S;table a S;region a,1 X;"),
    (5, "ns default S;table a S;region a,1 X;"),
];

// What the procedures do that are enlisted by what they ask for, what becomes of it, and who holds then.
const CALLS: &[(&str, &str)] = &[
    ("claim 1", "taken: 1"),
    ("claim 2", "taken: 1 2"),
    ("claim 3", "behind 1: 1 2"),
    ("claim 5", "behind 1: 1 2"),
    ("claim 4", "taken: 1 2 4"),
    ("claim 5", "behind 1: 1 2 4"),
    ("give-up 1", "true: 2 4"),
    ("claim 5", "behind 4: 2 4"),
    ("claim 1", "taken: 1 2 4"),
    ("give-up 1", "true: 2 4"),
    ("give-up 4", "true: 2"),
    ("claim 5", "taken: 2 5"),
    ("claim 1", "behind 5: 2 5"),
    ("claim 4", "behind 5: 2 5"),
    ("claim 3", "behind 2: 2 5"),
    ("give-up 2", "true: 5"),
    ("give-up 5", "true:"),
    ("claim 3", "taken: 3"),
    ("claim 2", "behind 3: 3"),
    ("holds 2", "false: 3"),
    ("holds 3", "true: 3"),
    ("release 3", "true:"),
    ("holds 3", "false:"),
    ("holds 9", "false:"),
];

// The same of procedures that are enlisted by drafts. A high one takes first, then lower ones stand behind it until it is
// released; the lowest that holds is told.
const DRAFTED: &[(&str, &str)] = &[
    ("claim 6", "missing:"),
    ("claim 5", "taken: 5"),
    ("claim 1", "behind 5: 5"),
    ("claim 4", "behind 5: 5"),
    ("claim 2", "taken: 2 5"),
    ("claim 3", "behind 2: 2 5"),
    ("release 5", "true: 2"),
    ("claim 5", "missing: 2"),
    ("claim 4", "taken: 2 4"),
    ("claim 1", "taken: 1 2 4"),
    ("claim 3", "behind 1: 1 2 4"),
    ("release 1", "true: 2 4"),
    ("release 2", "true: 4"),
    ("claim 3", "behind 4: 4"),
    ("release 4", "true:"),
    ("claim 3", "taken: 3"),
];

fn resource(rt: &(impl Abort + AllocGlobal), kind: &str, name: &str) -> Resource {
    match kind {
        "ns" => Resource::Ns(ns(rt, name)),
        "table" => Resource::Table(table(rt, name)),
        _ => Resource::Region(region(rt, name)),
    }
}

// What is asked for, told by words.
fn asks(rt: &(impl Abort + AllocGlobal), text: &str) -> List<Ask> {
    let mut asks = Vec::new(rt.alloc());
    for ask in text.split(';') {
        if !ask.is_empty() {
            let (kind, words) = first_word(ask);
            let (name, mode) = first_word(words);
            let resource = resource(rt, kind, name);
            let exclusive = mode == "X";
            let ask = Ask {
                resource,
                exclusive,
            };
            asks.push(ask).expect(rt, "memory");
        }
    }
    List::of(asks)
}

fn parent_of(pid: u64) -> Option<Pid> {
    if pid == 4 { Some(Pid(1)) } else { None }
}

// Whether a parent is enlisted, if there is one.
fn has_parent(book: &LockBook, parent: Option<Pid>) -> bool
    ensures { IsTrue result → IfSome parent (λ p. IsEnlisted book.now.rows p.0) }
{
    match parent {
        Some(parent) => book.lists(parent),
        None => true,
    }
}

// Enlists a procedure by what it asks for.
fn enlist(rt: &(impl Abort + AllocGlobal), book: &mut LockBook, pid: u64, asked: &str) {
    let parent = parent_of(pid);
    let asked = asks(rt, asked);
    assert!(rt; !book.lists(Pid(pid)));
    assert!(rt; has_parent(book, parent));
    book.enlist(rt.alloc(), Pid(pid), parent, asked)
        .expect(rt, "memory");
    assert!(rt; book.lists(Pid(pid)));
}

// Enlists a procedure by a draft of what it asks for.
fn enlist_draft(rt: &(impl Abort + AllocGlobal), book: &mut LockBook, pid: u64, asked: &str) {
    let draft = book
        .draft(rt.alloc(), parent_of(pid), asks(rt, asked))
        .expect(rt, "memory");
    is_told(rt, asked, lines(rt.alloc(), draft.asks()), asked);
    book.reserve(rt.alloc(), 1, draft.asks().len() as u64)
        .expect(rt, "memory");
    assert!(rt; !book.lists(Pid(pid)));
    book.enlist_draft(Pid(pid), draft);
    assert!(rt; book.lists(Pid(pid)));
}

fn run<L: Ledger>(
    rt: &(impl Abort + AllocGlobal),
    blank: Blank,
    book: &mut LockBook,
    deeds: &[(&str, &str)],
)
    requires name { blank.name ≡ L.name }
    requires parts { blank.parts ≡ L.parts }
    requires some { 1 ≤ L.parts }
{
    let mut steps = Steps::<L>::new(blank);
    for (deed, expected) in deeds {
        is_told(rt, deed, done(rt, book, deed, &mut steps), expected);
    }
}

#[test]
fn new_enlist_first_conflict_take_give_up_release_and_holds(rt: HostRuntime) {
    let mut book = LockBook::new(rt.alloc()).expect(&rt, "memory");
    for (pid, asked) in ASKED {
        enlist(&rt, &mut book, *pid, asked);
    }
    run::<Brand>(&rt, Blank::new(1), &mut book, CALLS);
    drop(book);
}

#[test]
fn draft_asks_reserve_enlist_draft_lists_take_release_and_holders(rt: HostRuntime) {
    let mut book = LockBook::new(rt.alloc()).expect(&rt, "memory");
    for (pid, asked) in ASKED {
        enlist_draft(&rt, &mut book, *pid, asked);
    }
    run::<Brand>(&rt, Blank::new(1), &mut book, DRAFTED);
    drop(book);
}
