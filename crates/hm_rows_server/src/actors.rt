//! A server and the storage, and what they answer to calls.
use crate::calls::{call, first_word, number, put_told, region, server};
use hm_data::Call;
use hm_names::{NameFault, Pid};
use hm_server::{Actor, StorageActor};
use std::alloc::{AllocError, Global};

// How many are to be refused.
fn count(word: &str) -> Result<u32, NameFault> {
    u32::try_from(number(word)?).or(Err(NameFault::BadNumber(1)))
}

fn holds(alloc: Global, actor: &Actor, name: &str) -> Result<bool, NameFault> {
    let region = region(alloc, name)?;
    let holds = actor.holds(&region);
    drop(region);
    Ok(holds)
}

// Puts those of two regions that a server holds.
fn put_held(alloc: Global, actor: &Actor, out: &mut String) -> Result<(), NameFault> {
    for name in ["t,1", "t,2"] {
        if holds(alloc, actor, name)? {
            write!(out, ", holds {name}")?;
        }
    }
    Ok(())
}

fn put_served(
    alloc: Global,
    actor: &mut Actor,
    call: &Call,
    out: &mut String,
) -> Result<(), AllocError> {
    let report = actor.serve(call)?;
    put_told(alloc, call, report, out)
}

// Puts what a server answers to a call, and what it holds then.
fn put_called(
    alloc: Global,
    actor: &mut Actor,
    (id, asked): (&str, &str),
    out: &mut String,
) -> Result<(), NameFault> {
    let call = call(alloc, "storage", id, asked)?;
    let put = put_served(alloc, actor, &call, out);
    drop(call);
    put?;
    put_held(alloc, actor, out)
}

/// Puts what a server answers: to a call, or what its name is.
pub fn put_actor(
    alloc: Global,
    actor: &mut Actor,
    words: &str,
    out: &mut String,
) -> Result<(), NameFault> {
    let (verb, rest) = first_word(words);
    match verb {
        "refuse" => actor.refuse(count(rest)?),
        "name" => write!(out, "{}", actor.name())?,
        id => put_called(alloc, actor, (id, rest), out)?,
    }
    Ok(())
}

// Puts what the storage answers to a call.
fn put_stored(
    alloc: Global,
    storage: &mut StorageActor,
    (id, asked): (&str, &str),
    out: &mut String,
) -> Result<(), NameFault> {
    let call = call(alloc, "storage", id, asked)?;
    let put = match storage.serve(alloc, &call) {
        Ok(report) => put_told(alloc, &call, report, out),
        Err(error) => Err(error),
    };
    drop(call);
    put?;
    Ok(())
}

// Shows a server as fenced, or puts whether it is.
fn put_fenced(
    alloc: Global,
    storage: &mut StorageActor,
    (shows, name): (bool, &str),
    out: &mut String,
) -> Result<(), NameFault> {
    let server = server(alloc, name)?;
    let put = if shows {
        storage.show_fenced(alloc, &server)
    } else {
        write!(out, "{}", storage.has_fenced(&server))
    };
    drop(server);
    put?;
    Ok(())
}

/// Puts what the storage answers: to a call, or whether a server is fenced.
pub fn put_storage(
    alloc: Global,
    storage: &mut StorageActor,
    words: &str,
    out: &mut String,
) -> Result<(), NameFault> {
    let (verb, rest) = first_word(words);
    match verb {
        "refuse" => storage.refuse(count(rest)?),
        "has-fenced" => put_fenced(alloc, storage, (false, rest), out)?,
        "show-fenced" => put_fenced(alloc, storage, (true, rest), out)?,
        "show-laid" => storage.show_laid(alloc, Pid(number(rest)?), true)?,
        id => put_stored(alloc, storage, (id, rest), out)?,
    }
    Ok(())
}
