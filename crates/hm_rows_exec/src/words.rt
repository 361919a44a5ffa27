//! What events answer, and what is recorded, in words.
use crate::run::Out;
use hm_data::{Entry, StepIn, StepOut, Turn};
use hm_exec::{AbortRefused, Accepted, DownWhy, Heard, Refused, UpWhy};
use hm_hall::{Given, HallFault};
use hm_names::{Pid, ServerName};
use std::alloc::AllocError;
use std::fmt::Write;

// What a step sees: its procedure and row, and what may change while it is claimed.
fn add_input(text: &mut String, at: &StepIn) -> Result<(), AllocError> {
    if let Turn::Undo { edits: _ } = &at.turn {
        text.push_str("undo ")?;
    }
    write!(text, "{} row {}", at.pid.0, at.row)?;
    if let Some(told) = at.report {
        write!(text, " report {told:?}")?;
    }
    if at.fenced {
        text.push_str(" fenced")?;
    }
    if let Some(server) = &at.pick {
        write!(text, " pick {server}")?;
    }
    if at.aborted {
        text.push_str(" aborted")?;
    }
    Ok(())
}

fn add_fault(text: &mut String, fault: HallFault) -> Result<(), AllocError> {
    write!(text, "{fault:?}")?;
    Ok(())
}

pub(crate) fn add_claim(
    text: &mut String,
    claimed: Result<bool, HallFault>,
    last: Option<&Out>,
) -> Result<(), AllocError> {
    let claimed = match claimed {
        Ok(claimed) => claimed,
        Err(fault) => return add_fault(text, fault),
    };
    match last {
        Some((pid, was, _)) if claimed => {
            write!(text, "claimed {}: ", pid.0)?;
            add_input(text, was)
        }
        _ => text.push_str("none"),
    }
}

pub(crate) fn add_commit(
    text: &mut String,
    given: Result<Option<Given>, HallFault>,
) -> Result<(), AllocError> {
    match given {
        Ok(Some(Given::Kept(number))) => {
            write!(text, "kept {number}")?;
            Ok(())
        }
        Ok(Some(Given::Stale { was, now })) => {
            text.push_str("stale: ")?;
            add_input(text, &was)?;
            text.push_str(", now ")?;
            add_input(text, &now)
        }
        Ok(None) => text.push_str("nothing"),
        Err(fault) => add_fault(text, fault),
    }
}

pub(crate) fn add_report(
    text: &mut String,
    heard: Result<Heard, HallFault>,
) -> Result<(), AllocError> {
    match heard {
        Ok(heard) => {
            write!(text, "{heard:?}")?;
            Ok(())
        }
        Err(fault) => add_fault(text, fault),
    }
}

pub(crate) fn add_submit(
    text: &mut String,
    answer: Result<Accepted, Refused>,
) -> Result<(), AllocError> {
    match answer {
        Ok(accepted) => {
            let repeated = if accepted.repeated { " repeated" } else { "" };
            write!(text, "pid {}{repeated}", accepted.pid.0)?;
        }
        Err(why) => write!(text, "{why:?}")?,
    }
    Ok(())
}

pub(crate) fn add_abort(
    text: &mut String,
    answer: Result<bool, AbortRefused>,
) -> Result<(), AllocError> {
    match answer {
        Ok(before) => {
            let already = if before { " already" } else { "" };
            write!(text, "aborting{already}")?;
            Ok(())
        }
        Err(AbortRefused::Fault(fault)) => add_fault(text, fault),
        Err(why) => {
            write!(text, "{why:?}")?;
            Ok(())
        }
    }
}

pub(crate) fn add_up(
    text: &mut String,
    answer: Result<Option<(ServerName, Pid)>, UpWhy>,
) -> Result<(), AllocError> {
    match answer {
        Ok(None) => text.push_str("up"),
        Ok(Some((older, pid))) => {
            write!(text, "up, down {older} by {}", pid.0)?;
            Ok(())
        }
        Err(UpWhy::Fault(fault)) => add_fault(text, fault),
        Err(why) => {
            write!(text, "{why:?}")?;
            Ok(())
        }
    }
}

pub(crate) fn add_down(text: &mut String, answer: Result<Pid, DownWhy>) -> Result<(), AllocError> {
    match answer {
        Ok(pid) => {
            write!(text, "down by {}", pid.0)?;
            Ok(())
        }
        Err(DownWhy::Fault(fault)) => add_fault(text, fault),
        Err(why) => {
            write!(text, "{why:?}")?;
            Ok(())
        }
    }
}

fn add_step(
    text: &mut String,
    pid: Pid,
    pick: &Option<ServerName>,
    out: &StepOut,
) -> Result<(), AllocError> {
    write!(text, "step {}", pid.0)?;
    if let Some(server) = pick {
        write!(text, " at {server}")?;
    }
    write!(text, " {:?}", out.answer)?;
    Ok(())
}

/// An entry.
pub(crate) fn add_entry(text: &mut String, entry: &Entry) -> Result<(), AllocError> {
    text.push_str("; ")?;
    match entry {
        Entry::Start { sheets: _ } => text.push_str("start")?,
        Entry::Submit { nonce, request: _ } => write!(text, "submit {nonce}")?,
        Entry::Step { pid, pick, out } => add_step(text, *pid, pick, out)?,
        Entry::Undo { pid, row, out } => {
            write!(text, "undo {} row {row} {:?}", pid.0, out.answer)?
        }
        Entry::Report { call, told } => write!(text, "report {} {told:?}", call.0)?,
        Entry::Up { server } => write!(text, "up {server}")?,
        Entry::Down { server } => write!(text, "down {server}")?,
        Entry::Abort { pid } => write!(text, "abort {}", pid.0)?,
        Entry::Base { part: _ } => text.push_str("base")?,
        Entry::Adopt { sheets: _ } => text.push_str("adopt")?,
    }
    Ok(())
}
