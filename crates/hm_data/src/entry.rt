ghost use Rattle.std.specs.Prelude.{◌≡◌, IfOk};
ghost use Rattle.hm_data.specs.declared.entry.Entry.TheVariants as entry_is;

use crate::call::Told;
use crate::pair::copy_two;
use crate::part::Part;
use crate::request::Request;
use crate::sheet::Sheet;
use crate::step::StepOut;
use hm_names::{Copied, List, Nonce, Pid, Same, ServerName};
use std::alloc::{AllocError, Global};

/// An entry of the journal.
#[derive(Drop)]
pub enum Entry {
    Start {
        sheets: List<Sheet>,
    },
    Submit {
        nonce: Nonce,
        request: Request,
    },
    Step {
        pid: Pid,
        pick: Option<ServerName>,
        out: StepOut,
    },
    /// The step of this row is undone.
    Undo {
        pid: Pid,
        row: u8,
        out: StepOut,
    },
    Report {
        call: Pid,
        told: Told,
    },
    Up {
        server: ServerName,
    },
    Down {
        server: ServerName,
    },
    Abort {
        pid: Pid,
    },
    /// A part of what the entries before it came to, which it stands for.
    Base {
        part: Part,
    },
    /// From here on roots belong to these sheets.
    Adopt {
        sheets: List<Sheet>,
    },
}

fn copy_start(sheets: &List<Sheet>, alloc: Global) -> Result<Entry, AllocError>
    ensures { IfOk result (λ it. it ≡ entry_is.Start sheets.now) }
{
    Ok(Entry::Start {
        sheets: sheets.copy(alloc)?,
    })
}

fn copy_submit(nonce: Nonce, request: &Request, alloc: Global) -> Result<Entry, AllocError>
    ensures { IfOk result (λ it. it ≡ entry_is.Submit nonce request.now) }
{
    Ok(Entry::Submit {
        nonce,
        request: request.copy(alloc)?,
    })
}

fn copy_step(
    pid: Pid,
    pick: &Option<ServerName>,
    out: &StepOut,
    alloc: Global,
) -> Result<Entry, AllocError>
    ensures { IfOk result (λ it. it ≡ entry_is.Step pid pick.now out.now) }
{
    let (pick, out) = copy_two(pick, out, alloc)?;
    Ok(Entry::Step { pid, pick, out })
}

fn copy_undo(pid: Pid, row: u8, out: &StepOut, alloc: Global) -> Result<Entry, AllocError>
    ensures { IfOk result (λ it. it ≡ entry_is.Undo pid row out.now) }
{
    Ok(Entry::Undo {
        pid,
        row,
        out: out.copy(alloc)?,
    })
}

fn copy_up(server: &ServerName, alloc: Global) -> Result<Entry, AllocError>
    ensures { IfOk result (λ it. it ≡ entry_is.Up server.now) }
{
    Ok(Entry::Up {
        server: server.copy(alloc)?,
    })
}

fn copy_down(server: &ServerName, alloc: Global) -> Result<Entry, AllocError>
    ensures { IfOk result (λ it. it ≡ entry_is.Down server.now) }
{
    Ok(Entry::Down {
        server: server.copy(alloc)?,
    })
}

fn copy_base(part: &Part, alloc: Global) -> Result<Entry, AllocError>
    ensures { IfOk result (λ it. it ≡ entry_is.Base part.now) }
{
    Ok(Entry::Base {
        part: part.copy(alloc)?,
    })
}

fn copy_adopt(sheets: &List<Sheet>, alloc: Global) -> Result<Entry, AllocError>
    ensures { IfOk result (λ it. it ≡ entry_is.Adopt sheets.now) }
{
    Ok(Entry::Adopt {
        sheets: sheets.copy(alloc)?,
    })
}

impl Copied for Entry {
    fn copy(&self, alloc: Global) -> Result<Entry, AllocError> {
        match self {
            Entry::Start { sheets } => copy_start(sheets, alloc),
            Entry::Submit { nonce, request } => copy_submit(*nonce, request, alloc),
            Entry::Step { pid, pick, out } => copy_step(*pid, pick, out, alloc),
            Entry::Undo { pid, row, out } => copy_undo(*pid, *row, out, alloc),
            Entry::Report { call, told } => Ok(Entry::Report {
                call: *call,
                told: *told,
            }),
            Entry::Up { server } => copy_up(server, alloc),
            Entry::Down { server } => copy_down(server, alloc),
            Entry::Abort { pid } => Ok(Entry::Abort { pid: *pid }),
            Entry::Base { part } => copy_base(part, alloc),
            Entry::Adopt { sheets } => copy_adopt(sheets, alloc),
        }
    }
}

impl Same for Entry {
    fn same(&self, other: &Entry) -> bool {
        match self {
            Entry::Start { sheets } => match other {
                Entry::Start {
                    sheets: other_sheets,
                } => sheets.same(other_sheets),
                _ => false,
            },
            Entry::Submit { nonce, request } => match other {
                Entry::Submit {
                    nonce: other_nonce,
                    request: other_request,
                } => nonce.same(other_nonce) && request.same(other_request),
                _ => false,
            },
            Entry::Step { pid, pick, out } => match other {
                Entry::Step {
                    pid: other_pid,
                    pick: other_pick,
                    out: other_out,
                } => pid.same(other_pid) && pick.same(other_pick) && out.same(other_out),
                _ => false,
            },
            Entry::Undo { pid, row, out } => match other {
                Entry::Undo {
                    pid: other_pid,
                    row: other_row,
                    out: other_out,
                } => pid.same(other_pid) && row == other_row && out.same(other_out),
                _ => false,
            },
            Entry::Report { call, told } => match other {
                Entry::Report {
                    call: other_call,
                    told: other_told,
                } => call.same(other_call) && told.same(other_told),
                _ => false,
            },
            Entry::Up { server } => match other {
                Entry::Up {
                    server: other_server,
                } => server.same(other_server),
                _ => false,
            },
            Entry::Down { server } => match other {
                Entry::Down {
                    server: other_server,
                } => server.same(other_server),
                _ => false,
            },
            Entry::Abort { pid } => match other {
                Entry::Abort { pid: other_pid } => pid.same(other_pid),
                _ => false,
            },
            Entry::Base { part } => match other {
                Entry::Base { part: other_part } => part.same(other_part),
                _ => false,
            },
            Entry::Adopt { sheets } => match other {
                Entry::Adopt {
                    sheets: other_sheets,
                } => sheets.same(other_sheets),
                _ => false,
            },
        }
    }
}
