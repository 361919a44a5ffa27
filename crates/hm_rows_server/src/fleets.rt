//! A fleet, and what travels to it and back.
use crate::calls::{call, first_word, put_told, region, server};
use hm_data::{Call, ReportMsg};
use hm_fleet::Fleet;
use hm_names::{Copied, NameFault, ServerName};
use hm_server::StorageActor;
use std::alloc::{AllocError, Global};

// Starts a server.
fn start(alloc: Global, fleet: &mut Fleet, name: &str) -> Result<(), NameFault> {
    let server = server(alloc, name)?;
    let newcomer = fleet.ready(alloc, &server);
    drop(server);
    fleet.start(newcomer?);
    Ok(())
}

fn start_both(alloc: Global, fleet: &mut Fleet) -> Result<(), NameFault> {
    start(alloc, fleet, "h1,1,1")?;
    start(alloc, fleet, "h2,1,1")
}

/// Two servers and the storage.
pub fn new_fleet(alloc: Global) -> Result<Fleet, NameFault> {
    let storage = StorageActor::new(alloc)?;
    let mut fleet = Fleet::of(alloc, storage)?;
    match start_both(alloc, &mut fleet) {
        Ok(()) => Ok(fleet),
        Err(fault) => {
            drop(fleet);
            Err(fault)
        }
    }
}

fn oldest(alloc: Global, fleet: &Fleet) -> Result<Option<ReportMsg>, AllocError> {
    match fleet.oldest() {
        Some(report) => Ok(Some(report.copy(alloc)?)),
        None => Ok(None),
    }
}

// Sends a call, delivers it, and hears its report.
fn carry(alloc: Global, fleet: &mut Fleet, call: Call) -> Result<Option<ReportMsg>, AllocError> {
    fleet.send(call)?;
    fleet.deliver(alloc)?;
    let report = oldest(alloc, fleet)?;
    fleet.hear();
    Ok(report)
}

// Puts what a call is answered.
fn put_carried(
    alloc: Global,
    fleet: &mut Fleet,
    call: &Call,
    out: &mut String,
) -> Result<(), AllocError> {
    let sent = call.copy(alloc)?;
    let report = carry(alloc, fleet, sent)?;
    put_told(alloc, call, report, out)
}

fn put_called(
    alloc: Global,
    fleet: &mut Fleet,
    (to, rest): (&str, &str),
    out: &mut String,
) -> Result<(), NameFault> {
    let (id, asked) = first_word(rest);
    let call = call(alloc, to, id, asked)?;
    let put = put_carried(alloc, fleet, &call, out);
    drop(call);
    put?;
    Ok(())
}

// Delivers the calls on the wire: how many there were.
fn deliver_all(alloc: Global, fleet: &mut Fleet) -> Result<u64, AllocError> {
    let mut count: u64 = 0;
    for _ in 0..fleet.on_wire() {
        if fleet.deliver(alloc)? {
            count = count.wrapping_add(1);
        }
    }
    Ok(count)
}

fn holds_at(alloc: Global, fleet: &Fleet, at: &ServerName, name: &str) -> Result<bool, NameFault> {
    let region = region(alloc, name)?;
    let holds = fleet.holds(at, &region);
    drop(region);
    Ok(holds)
}

// Whether a server holds a region.
fn holds(alloc: Global, fleet: &Fleet, words: &str) -> Result<bool, NameFault> {
    let (at, name) = first_word(words);
    let at = server(alloc, at)?;
    let holds = holds_at(alloc, fleet, &at, name);
    drop(at);
    holds
}

/// Puts what a fleet is asked: by words alone, or whether a server holds a region, or what a call is answered.
pub fn put_fleet(
    alloc: Global,
    fleet: &mut Fleet,
    words: &str,
    out: &mut String,
) -> Result<(), NameFault> {
    let (verb, rest) = first_word(words);
    match verb {
        "repeat" => write!(out, "{}", fleet.repeat()?)?,
        "deliver" => write!(out, "{}", deliver_all(alloc, fleet)?)?,
        "waits" => write!(out, "{}", fleet.waits())?,
        "holds" => write!(out, "{}", holds(alloc, fleet, rest)?)?,
        to => put_called(alloc, fleet, (to, rest), out)?,
    }
    Ok(())
}
