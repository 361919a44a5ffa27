//! Region servers and the storage by the calls that they serve, a fleet of them by what travels, places of regions, and
//! which servers are live. Each line of standard input is a case, unless it begins with `#`; it is printed with what was
//! answered. `anew` forgets all that was before it.
#![tactic(auto)]

mod actors;
mod calls;
mod fleets;
mod placed;
mod standing;

use actors::{put_actor, put_storage};
use calls::{first_word, server};
use fleets::{new_fleet, put_fleet};
use hm_fleet::Fleet;
use hm_names::NameFault;
use hm_places::{Places, Servers};
use hm_server::{Actor, StorageActor};
use placed::put_placed;
use standing::put_standing;
use std::alloc::{AllocError, Global};
use std::io::{self, BufRead, BufReader};
use std::mem;

// Two servers, with no calls.
#[derive(Drop)]
struct Pair {
    first: Actor,
    second: Actor,
}

// Those who are called: two servers and the storage, each by itself.
#[derive(Drop)]
struct Called {
    pair: Pair,
    storage: StorageActor,
}

// Where regions are, and which servers came up.
#[derive(Drop)]
struct Known {
    places: Places,
    servers: Servers,
}

// A fleet, and what is known beside it.
#[derive(Drop)]
struct Outside {
    fleet: Fleet,
    known: Known,
}

// What the lines speak of: each as it is before anything was done.
#[derive(Drop)]
struct World {
    called: Called,
    outside: Outside,
}

fn new_actor(alloc: Global, name: &str) -> Result<Actor, NameFault> {
    Ok(Actor::new(alloc, server(alloc, name)?))
}

fn new_pair(alloc: Global) -> Result<Pair, NameFault> {
    let first = new_actor(alloc, "h1,1,1")?;
    match new_actor(alloc, "h2,1,1") {
        Ok(second) => Ok(Pair { first, second }),
        Err(fault) => {
            drop(first);
            Err(fault)
        }
    }
}

fn new_called(alloc: Global) -> Result<Called, NameFault> {
    let pair = new_pair(alloc)?;
    match StorageActor::new(alloc) {
        Ok(storage) => Ok(Called { pair, storage }),
        Err(_) => {
            drop(pair);
            Err(NameFault::Memory)
        }
    }
}

fn new_known(alloc: Global) -> Result<Known, AllocError> {
    let places = Places::new(alloc)?;
    match Servers::new(alloc) {
        Ok(servers) => Ok(Known { places, servers }),
        Err(error) => {
            drop(places);
            Err(error)
        }
    }
}

fn new_outside(alloc: Global) -> Result<Outside, NameFault> {
    let known = new_known(alloc)?;
    match new_fleet(alloc) {
        Ok(fleet) => Ok(Outside { fleet, known }),
        Err(fault) => {
            drop(known);
            Err(fault)
        }
    }
}

fn new_world(alloc: Global) -> Result<World, NameFault> {
    let outside = new_outside(alloc)?;
    match new_called(alloc) {
        Ok(called) => Ok(World { called, outside }),
        Err(fault) => {
            drop(outside);
            Err(fault)
        }
    }
}

// Puts what is answered of who is live, or of where regions are.
fn put_rest(
    alloc: Global,
    known: &mut Known,
    words: &str,
    out: &mut String,
) -> Result<(), NameFault> {
    let (subject, rest) = first_word(words);
    match subject {
        "servers" => drop(mem::replace(&mut known.servers, Servers::new(alloc)?)),
        "place" => put_placed(alloc, &mut known.places, rest, out)?,
        _ => put_standing(alloc, &mut known.servers, &known.places, words, out)?,
    }
    Ok(())
}

// Puts what a line is answered.
fn put_answer(
    alloc: Global,
    world: &mut World,
    words: &str,
    out: &mut String,
) -> Result<(), NameFault> {
    let (subject, rest) = first_word(words);
    match subject {
        "anew" => drop(mem::replace(world, new_world(alloc)?)),
        "first" => put_actor(alloc, &mut world.called.pair.first, rest, out)?,
        "second" => put_actor(alloc, &mut world.called.pair.second, rest, out)?,
        "storage" => put_storage(alloc, &mut world.called.storage, rest, out)?,
        "fleet" => put_fleet(alloc, &mut world.outside.fleet, rest, out)?,
        _ => put_rest(alloc, &mut world.outside.known, words, out)?,
    }
    Ok(())
}

// Puts what a line is answered, or why a name in it is none.
fn put_case(
    alloc: Global,
    world: &mut World,
    line: &str,
    out: &mut String,
) -> Result<(), AllocError> {
    if line.starts_with("#") {
        return Ok(());
    }
    out.push_str(": ")?;
    let before = out.len();
    if let Err(fault) = put_answer(alloc, world, line, out) {
        write!(out, "{fault}")?;
    }
    if out.len() == before {
        out.push_str("done")?;
    }
    Ok(())
}

fn put_line(rt: &impl Print, alloc: Global, world: &mut World, line: &str) -> io::Result<()> {
    let mut out = String::new(alloc);
    let printed = match put_case(alloc, world, line, &mut out) {
        Ok(()) => println!(rt; "{line}{out}"),
        Err(error) => Err(error.into()),
    };
    drop(out);
    printed
}

fn put_cases(rt: &(impl Input + Print), alloc: Global, world: &mut World) -> io::Result<()> {
    for line in BufReader::new(alloc, rt.reader())?.lines(alloc) {
        let line = line?;
        let put = put_line(rt, alloc, world, &line);
        drop(line);
        put?;
    }
    Ok(())
}

fn main(rt: HostRuntime) -> io::Result<()> {
    let alloc = rt.alloc();
    match new_world(alloc) {
        Ok(mut world) => {
            let put = put_cases(&rt, alloc, &mut world);
            drop(world);
            put
        }
        Err(_) => println!(rt; "no world"),
    }
}
