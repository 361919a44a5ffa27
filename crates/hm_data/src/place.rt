ghost use Rattle.std.specs.Prelude.{◌≡◌, IfSome, Some};

use hm_names::{Copied, Same, ServerName};
use std::alloc::{AllocError, Global};

/// How far a region is open.
#[derive(Clone, Copy, Debug, PartialEq, Eq)]
pub enum RegionState {
    Offline,
    Opening,
    Opened,
    Closing,
    Closed,
    FailedOpen,
    AbnormallyClosed,
}

impl Copied for RegionState {
    fn copy(&self, _alloc: Global) -> Result<RegionState, AllocError> {
        Ok(*self)
    }
}

impl Same for RegionState {
    fn same(&self, other: &RegionState) -> bool {
        self == other
    }
}

impl RegionState {
    ghost use Rattle.hm_data.specs.Numbers.{region_state_number, region_state_of};

    /// The number of the state.
    pub fn number(self) -> u8
        ensures number { result ≡ region_state_number self }
        ensures back { region_state_of result ≡ Some self }
    {
        self as u8
    }

    /// The state of a number.
    pub fn of(number: u8) -> Option<RegionState>
        ensures value { result ≡ region_state_of number }
        ensures back { IfSome result (λ x. region_state_number x ≡ number) }
    {
        match number {
            0 => Some(RegionState::Offline),
            1 => Some(RegionState::Opening),
            2 => Some(RegionState::Opened),
            3 => Some(RegionState::Closing),
            4 => Some(RegionState::Closed),
            5 => Some(RegionState::FailedOpen),
            6 => Some(RegionState::AbnormallyClosed),
            _ => None,
        }
    }
}

/// Where a region is, and how far it is open there.
#[derive(Debug, Drop, PartialEq, Eq)]
pub struct Place {
    pub state: RegionState,
    pub server: Option<ServerName>,
}

impl Copied for Place {
    fn copy(&self, alloc: Global) -> Result<Place, AllocError> {
        Ok(Place {
            state: self.state,
            server: self.server.copy(alloc)?,
        })
    }
}

impl Same for Place {
    fn same(&self, other: &Place) -> bool {
        self.state.same(&other.state) && self.server.same(&other.server)
    }
}

/// What a transit of a region is for.
#[derive(Clone, Copy, Debug, PartialEq, Eq)]
pub enum Goal {
    Assign,
    Unassign,
    Move,
}

impl Copied for Goal {
    fn copy(&self, _alloc: Global) -> Result<Goal, AllocError> {
        Ok(*self)
    }
}

impl Same for Goal {
    fn same(&self, other: &Goal) -> bool {
        self == other
    }
}

impl Goal {
    ghost use Rattle.hm_data.specs.Numbers.{goal_number, goal_of};

    /// The number of the goal.
    pub fn number(self) -> u8
        ensures number { result ≡ goal_number self }
        ensures back { goal_of result ≡ Some self }
    {
        self as u8
    }

    /// The goal of a number.
    pub fn of(number: u8) -> Option<Goal>
        ensures value { result ≡ goal_of number }
        ensures back { IfSome result (λ x. goal_number x ≡ number) }
    {
        match number {
            0 => Some(Goal::Assign),
            1 => Some(Goal::Unassign),
            2 => Some(Goal::Move),
            _ => None,
        }
    }
}
