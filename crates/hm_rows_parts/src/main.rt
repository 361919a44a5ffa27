//! The parts that others are built of, by their calls: an index, linked lists, and a lock book. Each line of standard input
//! is a case, unless it begins with `#`; it is printed with what was answered. `anew` forgets all that was before it.
#![tactic(auto)]

ghost use Rattle.std.specs.Prelude.{◌≡◌, ◌≤◌};

mod books;
mod fills;
mod indexes;
mod lists;
mod numbers;

use books::{put_book, put_claim};
use fills::put_fill;
use hm_index::Index;
use hm_lists::{Lists, Steps};
use hm_locks::LockBook;
use hm_names::NameFault;
use indexes::put_index;
use lists::put_list;
use std::alloc::{AllocError, Global};
use std::io::{self, BufRead, BufReader};
use std::marker::Brand;
use std::mem;
use std::sync::ledger::{Blank, Ledger};

// What the lines speak of.
#[derive(Drop)]
struct World {
    index: Index<u64, u64>,
    items: Vec<u64>,
    lists: Lists,
    book: LockBook,
}

fn new_linked(alloc: Global) -> Result<(Lists, LockBook), AllocError> {
    let lists = Lists::new(alloc, 1)?;
    let book = LockBook::new(alloc)?;
    Ok((lists, book))
}

fn new_world(alloc: Global) -> Result<World, AllocError> {
    let index = Index::new(alloc)?;
    let (lists, book) = new_linked(alloc)?;
    let items = Vec::new(alloc);
    Ok(World {
        index,
        items,
        lists,
        book,
    })
}

// Forgets all that was before.
fn renew(alloc: Global, world: &mut World) -> Result<(), NameFault> {
    let old = mem::replace(world, new_world(alloc)?);
    drop(old);
    Ok(())
}

// Puts what a line is answered.
fn put_answer<L: Ledger>(
    alloc: Global,
    world: &mut World,
    line: &str,
    steps: &mut Steps<L>,
    out: &mut String,
) -> Result<(), NameFault> {
    let (word, rest) = line.split_once(" ").unwrap_or((line, ""));
    match word {
        "anew" => renew(alloc, world),
        "index" => put_index(alloc, &mut world.index, rest, out),
        "fill" => put_fill(alloc, &mut world.index, rest, out),
        "put-at" => numbers::put(&mut world.items, rest, out),
        "list" => put_list(alloc, &mut world.lists, rest, steps, out),
        "claim" => put_claim(&mut world.book, rest, steps, out),
        _ => put_book(alloc, &mut world.book, (word, rest), out),
    }
}

// Puts what a line is answered, or why a name in it is none.
fn put_case<L: Ledger>(
    alloc: Global,
    world: &mut World,
    line: &str,
    steps: &mut Steps<L>,
    out: &mut String,
) -> Result<(), AllocError> {
    out.push_str(": ")?;
    let before = out.len();
    if let Err(fault) = put_answer(alloc, world, line, steps, out) {
        write!(out, "{fault}")?;
    }
    if out.len() == before {
        out.push_str("none")?;
    }
    Ok(())
}

// Prints a line with what it is answered.
fn print_case<L: Ledger>(
    rt: &(impl Input + Print),
    alloc: Global,
    world: &mut World,
    line: &str,
    steps: &mut Steps<L>,
) -> io::Result<()> {
    let mut out = String::new(alloc);
    if !line.starts_with("#") {
        put_case(alloc, world, line, steps, &mut out)?;
    }
    println!(rt; "{line}{out}")
}

fn print_cases<L: Ledger>(
    rt: &(impl Input + Print),
    alloc: Global,
    world: &mut World,
    steps: &mut Steps<L>,
) -> io::Result<()> {
    for line in BufReader::new(alloc, rt.reader())?.lines(alloc) {
        let line = line?;
        print_case(rt, alloc, world, &line, steps)?;
    }
    Ok(())
}

fn run<L: Ledger>(rt: &(impl Input + Print), alloc: Global, blank: Blank) -> io::Result<()>
    requires name { blank.name ≡ L.name }
    requires parts { blank.parts ≡ L.parts }
    requires some { 1 ≤ L.parts }
{
    let mut steps = Steps::<L>::new(blank);
    let mut world = new_world(alloc)?;
    let printed = print_cases(rt, alloc, &mut world, &mut steps);
    drop(world);
    printed
}

fn main(rt: HostRuntime) -> io::Result<()> {
    run::<Brand>(&rt, rt.alloc(), Blank::new(1))
}
