ghost use Rattle.std.specs.Prelude.{◌≡◌, IfSome, Some};

use crate::pair::copy_two;
use hm_names::{Copied, Pid, RegionName, Same, ServerName};
use std::alloc::{AllocError, Global};

/// What a call asks of its peer.
#[derive(Debug, Drop, PartialEq, Eq)]
pub enum Verb {
    AssignRegion(RegionName),
    CloseRegion(RegionName),
    Fence(ServerName),
    /// Writes the files that a procedure needs.
    Layout(Pid),
    /// Removes them.
    Sweep(Pid),
}

impl Copied for Verb {
    fn copy(&self, alloc: Global) -> Result<Verb, AllocError> {
        match self {
            Verb::AssignRegion(region) => Ok(Verb::AssignRegion(region.copy(alloc)?)),
            Verb::CloseRegion(region) => Ok(Verb::CloseRegion(region.copy(alloc)?)),
            Verb::Fence(server) => Ok(Verb::Fence(server.copy(alloc)?)),
            Verb::Layout(root) => Ok(Verb::Layout(*root)),
            Verb::Sweep(root) => Ok(Verb::Sweep(*root)),
        }
    }
}

impl Same for Verb {
    fn same(&self, other: &Verb) -> bool {
        match self {
            Verb::AssignRegion(region) => match other {
                Verb::AssignRegion(other_region) => region.same(other_region),
                _ => false,
            },
            Verb::CloseRegion(region) => match other {
                Verb::CloseRegion(other_region) => region.same(other_region),
                _ => false,
            },
            Verb::Fence(server) => match other {
                Verb::Fence(other_server) => server.same(other_server),
                _ => false,
            },
            Verb::Layout(root) => match other {
                Verb::Layout(other_root) => root.same(other_root),
                _ => false,
            },
            Verb::Sweep(root) => match other {
                Verb::Sweep(other_root) => root.same(other_root),
                _ => false,
            },
        }
    }
}

/// Whom a call is for.
#[derive(Debug, Drop, PartialEq, Eq)]
pub enum Peer {
    Server(ServerName),
    Storage,
}

impl Copied for Peer {
    fn copy(&self, alloc: Global) -> Result<Peer, AllocError> {
        match self {
            Peer::Server(server) => Ok(Peer::Server(server.copy(alloc)?)),
            Peer::Storage => Ok(Peer::Storage),
        }
    }
}

impl Same for Peer {
    fn same(&self, other: &Peer) -> bool {
        match self {
            Peer::Server(server) => match other {
                Peer::Server(other_server) => server.same(other_server),
                _ => false,
            },
            Peer::Storage => matches!(other, Peer::Storage),
        }
    }
}

/// What a call was answered, or what a procedure ended with.
#[derive(Clone, Copy, Debug, PartialEq, Eq)]
pub enum Told {
    Nothing,
    Opened,
    FailedOpen,
    Closed,
    Gone,
    Fenced,
    LaidOut,
    Refused,
    Swept,
}

impl Copied for Told {
    fn copy(&self, _alloc: Global) -> Result<Told, AllocError> {
        Ok(*self)
    }
}

impl Same for Told {
    fn same(&self, other: &Told) -> bool {
        self == other
    }
}

impl Told {
    ghost use Rattle.hm_data.specs.Numbers.{told_number, told_of};

    /// The number of the answer.
    pub fn number(self) -> u8
        ensures number { result ≡ told_number self }
        ensures back { told_of result ≡ Some self }
    {
        self as u8
    }

    /// The answer of a number.
    pub fn of(number: u8) -> Option<Told>
        ensures value { result ≡ told_of number }
        ensures back { IfSome result (λ x. told_number x ≡ number) }
    {
        match number {
            0 => Some(Told::Nothing),
            1 => Some(Told::Opened),
            2 => Some(Told::FailedOpen),
            3 => Some(Told::Closed),
            4 => Some(Told::Gone),
            5 => Some(Told::Fenced),
            6 => Some(Told::LaidOut),
            7 => Some(Told::Refused),
            8 => Some(Told::Swept),
            _ => None,
        }
    }
}

/// A call on the wire.
#[derive(Debug, Drop, PartialEq, Eq)]
pub struct Call {
    /// The procedure that recorded the call.
    pub id: Pid,
    pub peer: Peer,
    pub verb: Verb,
}

impl Copied for Call {
    fn copy(&self, alloc: Global) -> Result<Call, AllocError> {
        let (peer, verb) = copy_two(&self.peer, &self.verb, alloc)?;
        Ok(Call {
            id: self.id,
            peer,
            verb,
        })
    }
}

impl Same for Call {
    fn same(&self, other: &Call) -> bool {
        self.id.same(&other.id) && self.peer.same(&other.peer) && self.verb.same(&other.verb)
    }
}

/// An answer on the wire.
#[derive(Debug, Drop, PartialEq, Eq)]
pub struct ReportMsg {
    pub call: Pid,
    pub from: Peer,
    pub told: Told,
}

impl Copied for ReportMsg {
    fn copy(&self, alloc: Global) -> Result<ReportMsg, AllocError> {
        Ok(ReportMsg {
            call: self.call,
            from: self.from.copy(alloc)?,
            told: self.told,
        })
    }
}

impl Same for ReportMsg {
    fn same(&self, other: &ReportMsg) -> bool {
        self.call.same(&other.call) && self.from.same(&other.from) && self.told.same(&other.told)
    }
}
