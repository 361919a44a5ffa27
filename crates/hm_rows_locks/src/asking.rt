//! What each kind of procedure asks for.
ghost use Rattle.hm_locks.specs.Needs.{HasFirst};

use crate::texts::is_told;
use crate::work::args;
use hm_data::Args;
use hm_locks::asks;
use hm_model::{Ask, Resource};
use std::alloc::{AllocError, Global};

// The lowest id that was not drawn is 11.
const ASKED: &[(&str, &str)] = &[
    ("namespace n", "ns n X;"),
    ("drop-namespace n", "ns n X;"),
    ("create n:t", "ns n S;table n:t X;"),
    ("delete n:t", "ns n S;table n:t X;"),
    ("enable n:t", "ns n S;table n:t X;"),
    ("disable n:t", "ns n S;table n:t X;"),
    ("modify t", "ns default S;table t X;"),
    (
        "split n:t,4",
        "ns n S;table n:t S;region n:t,4 X;region n:t,11 X;region n:t,12 X;",
    ),
    (
        "merge n:t,9 n:t,8",
        "ns n S;table n:t S;region n:t,8 X;region n:t,9 X;region n:t,11 X;",
    ),
    (
        "merge n:t,3 n:t,10 n:t,2",
        "ns n S;table n:t S;region n:t,2 X;region n:t,3 X;region n:t,10 X;region n:t,11 X;",
    ),
    ("move n:t,4", "ns n S;table n:t S;region n:t,4 X;"),
    (
        "move n:t,4 h1,16020,1",
        "ns n S;table n:t S;region n:t,4 X;",
    ),
    ("transit t,4", "ns default S;table t S;region t,4 X;"),
    ("crash h1,16020,1", "server h1,16020,1 X;"),
    ("add-regions n:t", ""),
    ("drop-regions n:t", ""),
    ("assign-call n:t,4 h1,16020,1", ""),
    ("close-call n:t,4 h1,16020,1", ""),
    ("fence-call h1,16020,1", ""),
    ("layout-call", ""),
    ("sweep-layout", ""),
];

// Puts an ask: its resource, and whether it is shared or exclusive.
fn put_ask(out: &mut String, ask: &Ask) -> Result<(), AllocError> {
    let mode = if ask.exclusive { "X" } else { "S" };
    match &ask.resource {
        Resource::Ns(ns) => write!(out, "ns {ns} {mode};"),
        Resource::Table(table) => write!(out, "table {table} {mode};"),
        Resource::Region(region) => write!(out, "region {region} {mode};"),
        Resource::Server(server) => write!(out, "server {server} {mode};"),
    }
}

fn put_asks(out: &mut String, asked: &[Ask]) -> Result<(), AllocError> {
    for ask in asked {
        put_ask(out, ask)?;
    }
    Ok(())
}

/// Asks one after another.
pub fn lines(alloc: Global, asked: &[Ask]) -> Result<String, AllocError> {
    let mut text = String::new(alloc);
    match put_asks(&mut text, asked) {
        Ok(()) => Ok(text),
        Err(error) => {
            drop(text);
            Err(error)
        }
    }
}

// What a procedure asks for that works on this.
fn asked_of(alloc: Global, args: &Args) -> Result<String, AllocError>
    requires { HasFirst args.now }
{
    let asked = asks(alloc, args)?;
    let text = lines(alloc, asked.as_slice());
    drop(asked);
    text
}

// Each kind asks for its resources in their order, shared or exclusively.
#[test]
fn asks_of_each_kind(rt: HostRuntime) {
    for (work, expected) in ASKED {
        let args = args(&rt, work);
        let told = asked_of(rt.alloc(), &args);
        drop(args);
        is_told(&rt, work, told, expected);
    }
}
