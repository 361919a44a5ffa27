//! Names, and calls that are told by words.
use hm_data::{Call, Peer, ReportMsg, Verb};
use hm_names::{Copied, NameFault, Pid, RegionName, Same, ServerName, parse_decimal};
use std::alloc::{AllocError, Global};

/// The first word, and the others.
pub fn first_word(words: &str) -> (&str, &str) {
    match words.split_once(' ') {
        Some(parts) => parts,
        None => (words, ""),
    }
}

pub fn number(word: &str) -> Result<u64, NameFault> {
    parse_decimal(word.as_bytes()).ok_or(NameFault::BadNumber(0))
}

pub fn region(alloc: Global, word: &str) -> Result<RegionName, NameFault> {
    RegionName::parse(alloc, word.as_bytes())
}

pub fn server(alloc: Global, word: &str) -> Result<ServerName, NameFault> {
    ServerName::parse(alloc, word.as_bytes())
}

fn verb(alloc: Global, verb: &str, name: &str) -> Result<Verb, NameFault> {
    Ok(match verb {
        "open" => Verb::AssignRegion(region(alloc, name)?),
        "close" => Verb::CloseRegion(region(alloc, name)?),
        "fence" => Verb::Fence(server(alloc, name)?),
        "layout" => Verb::Layout(Pid(number(name)?)),
        _ => Verb::Sweep(Pid(number(name)?)),
    })
}

// Whom a call is for.
fn peer(alloc: Global, word: &str) -> Result<Peer, NameFault> {
    if word == "storage" {
        return Ok(Peer::Storage);
    }
    Ok(Peer::Server(server(alloc, word)?))
}

/// A call: whom it is for, its number, and what it asks.
pub fn call(alloc: Global, to: &str, id: &str, asked: &str) -> Result<Call, NameFault> {
    let (asks, name) = first_word(asked);
    let id = Pid(number(id)?);
    let verb = verb(alloc, asks, name)?;
    match peer(alloc, to) {
        Ok(peer) => Ok(Call { id, peer, verb }),
        Err(fault) => {
            drop(verb);
            Err(fault)
        }
    }
}

// Whether a value's copy is the value.
fn copies<T: Copied + Same + Drop>(alloc: Global, value: &T) -> Result<bool, AllocError> {
    let copy = value.copy(alloc)?;
    let same = copy.same(value);
    drop(copy);
    Ok(same)
}

// Puts what was reported, and says so where the report's copy is another.
fn put_report(alloc: Global, report: &ReportMsg, out: &mut String) -> Result<(), AllocError> {
    if !copies(alloc, report)? {
        out.push_str("another copy of the report ")?;
    }
    let told = report.told;
    write!(out, "{told:?}")
}

/// Puts what a call was answered, and says so where the copy of the call or of the report is another.
pub fn put_told(
    alloc: Global,
    call: &Call,
    report: Option<ReportMsg>,
    out: &mut String,
) -> Result<(), AllocError> {
    if let Some(report) = report {
        let put = put_report(alloc, &report, out);
        drop(report);
        put?;
    } else {
        out.push_str("no report")?;
    }
    if !copies(alloc, call)? {
        out.push_str(", another copy of the call")?;
    }
    Ok(())
}
