//! Events, and what each says.
use crate::run::Run;
use crate::words::{
    add_abort, add_claim, add_commit, add_down, add_entry, add_report, add_submit, add_up,
};
use hm_data::{Peer, ReportMsg, Request, Told};
use hm_names::{List, Nonce, Pid, RowKey, ServerName, TableName};
use hm_script::{Command, parse};
use std::alloc::{AllocError, Global};

/// An event.
#[derive(Clone, Copy, Debug)]
pub(crate) enum Event {
    /// A submission, an abort, or a server that comes up or is held to be dead, as a line of a script.
    Line(&'static str),
    Claim,
    /// A claim whose answer is committed at once.
    Step,
    Commit(u64),
    PutBack(u64),
    /// A report of this call, by the storage or a server.
    Report(u64, &'static str, Told),
    /// A table is to be created, cut at so many keys.
    Wide(u16),
}

/// An event, and what it says: its answer, and then what was recorded.
pub(crate) type Row = (Event, &'static str);

// What a command that submits asks for. Another command is given back.
fn asked(command: Command) -> Result<(Nonce, Request), Command> {
    match command {
        Command::Namespace { nonce, ns } => Ok((nonce, Request::CreateNamespace { ns })),
        Command::DropNamespace { nonce, ns } => Ok((nonce, Request::DropNamespace { ns })),
        Command::Create { nonce, table, keys } => Ok((nonce, Request::CreateTable { table, keys })),
        Command::Split { nonce, region, key } => Ok((nonce, Request::SplitRegion { region, key })),
        Command::Merge { nonce, regions } => Ok((nonce, Request::MergeRegions { regions })),
        other => Err(other),
    }
}

// The one command of a line.
fn command(alloc: Global, line: &str) -> Result<Command, AllocError> {
    let Ok(mut commands) = parse(alloc, line.as_bytes()) else {
        return Err(AllocError);
    };
    commands.pop().ok_or(AllocError)
}

fn say_line(alloc: Global, run: &mut Run, line: &str, text: &mut String) -> Result<(), AllocError> {
    match asked(command(alloc, line)?) {
        Ok((nonce, request)) => add_submit(text, run.submit(alloc, nonce, request)),
        Err(Command::Abort { pid }) => add_abort(text, run.abort(alloc, pid)),
        Err(Command::Server { server }) => add_up(text, run.up(alloc, server)),
        Err(Command::Expire { server }) => add_down(text, run.down(alloc, &server)),
        Err(_) => Err(AllocError),
    }
}

// A table that is cut at so many keys.
fn wide(alloc: Global, count: u16) -> Result<Request, AllocError> {
    let mut keys = Vec::new(alloc);
    for number in 1..=count {
        let Ok(key) = RowKey::of(alloc, &number.to_be_bytes()) else {
            return Err(AllocError);
        };
        keys.push(key)?;
    }
    let Ok(table) = TableName::parse(alloc, b"u") else {
        return Err(AllocError);
    };
    Ok(Request::CreateTable {
        table,
        keys: List::of(keys),
    })
}

fn peer(alloc: Global, from: &str) -> Result<Peer, AllocError> {
    if from == "storage" {
        return Ok(Peer::Storage);
    }
    match ServerName::parse(alloc, from.as_bytes()) {
        Ok(server) => Ok(Peer::Server(server)),
        Err(_) => Err(AllocError),
    }
}

// Claims, and says so. False where nothing was claimed.
fn say_claim(alloc: Global, run: &mut Run, text: &mut String) -> Result<bool, AllocError> {
    let claimed = run.claim(alloc);
    add_claim(text, claimed, run.last())?;
    Ok(claimed == Ok(true))
}

// Claims, and commits what was claimed.
fn say_step(alloc: Global, run: &mut Run, text: &mut String) -> Result<(), AllocError> {
    if !say_claim(alloc, run, text)? {
        return Ok(());
    }
    let Some((pid, _, _)) = run.last() else {
        return Ok(());
    };
    let pid = pid.0;
    text.push_str(", ")?;
    add_commit(text, run.commit(alloc, pid))
}

fn say_put_back(run: &mut Run, pid: u64, text: &mut String) -> Result<(), AllocError> {
    if run.put_back(pid) {
        text.push_str("back")
    } else {
        text.push_str("nothing")
    }
}

fn say_event(
    alloc: Global,
    run: &mut Run,
    event: Event,
    text: &mut String,
) -> Result<(), AllocError> {
    match event {
        Event::Line(line) => say_line(alloc, run, line, text),
        Event::Claim => {
            say_claim(alloc, run, text)?;
            Ok(())
        }
        Event::Step => say_step(alloc, run, text),
        Event::Commit(pid) => add_commit(text, run.commit(alloc, pid)),
        Event::PutBack(pid) => say_put_back(run, pid, text),
        Event::Report(call, from, told) => {
            let message = ReportMsg {
                call: Pid(call),
                from: peer(alloc, from)?,
                told,
            };
            add_report(text, run.report(alloc, message))
        }
        Event::Wide(count) => {
            let nonce = Nonce {
                group: 0,
                number: 0,
            };
            add_submit(text, run.submit(alloc, nonce, wide(alloc, count)?))
        }
    }
}

/// What an event says.
pub(crate) fn say(alloc: Global, run: &mut Run, event: Event) -> Result<String, AllocError> {
    let mut text = String::new(alloc);
    let before = run.recorder().entries().len();
    say_event(alloc, run, event, &mut text)?;
    for entry in run.recorder().entries().iter().skip(before) {
        add_entry(&mut text, entry)?;
    }
    Ok(text)
}
