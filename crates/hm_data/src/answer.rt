ghost use Rattle.std.specs.Prelude.{◌≡◌, IfSome, Some};

use crate::call::Told;
use hm_names::{Copied, Same};
use std::alloc::{AllocError, Global};

/// Why a procedure failed.
#[derive(Clone, Copy, Debug, PartialEq, Eq)]
pub enum Cause {
    NsExists = 1,
    NsMissing = 2,
    NsNotEmpty = 3,
    TableExists = 4,
    TableMissing = 5,
    NotDisabled = 6,
    NotEnabled = 7,
    RegionMissing = 8,
    RegionNotLive = 9,
    KeyOutside = 10,
    NotAdjacent = 11,
    LayoutRefused = 12,
    Aborted = 13,
}

impl Copied for Cause {
    fn copy(&self, _alloc: Global) -> Result<Cause, AllocError> {
        Ok(*self)
    }
}

impl Same for Cause {
    fn same(&self, other: &Cause) -> bool {
        self == other
    }
}

impl Cause {
    ghost use Rattle.hm_data.specs.Numbers.{cause_number, cause_of};

    /// The number of the cause.
    pub fn number(self) -> u8
        ensures number { result ≡ cause_number self }
        ensures back { cause_of result ≡ Some self }
    {
        self as u8
    }

    /// The cause of a number.
    pub fn of(number: u8) -> Option<Cause>
        ensures value { result ≡ cause_of number }
        ensures back { IfSome result (λ x. cause_number x ≡ number) }
    {
        match number {
            1 => Some(Cause::NsExists),
            2 => Some(Cause::NsMissing),
            3 => Some(Cause::NsNotEmpty),
            4 => Some(Cause::TableExists),
            5 => Some(Cause::TableMissing),
            6 => Some(Cause::NotDisabled),
            7 => Some(Cause::NotEnabled),
            8 => Some(Cause::RegionMissing),
            9 => Some(Cause::RegionNotLive),
            10 => Some(Cause::KeyOutside),
            11 => Some(Cause::NotAdjacent),
            12 => Some(Cause::LayoutRefused),
            13 => Some(Cause::Aborted),
            _ => None,
        }
    }
}

/// What a step answers. A number is the row that comes next.
#[derive(Clone, Copy, Debug, PartialEq, Eq)]
pub enum Answer {
    /// The procedure goes on.
    More(u8),
    /// It goes on when its children have ended.
    Wait(u8),
    /// It goes on when its call is answered.
    Await(u8),
    Done(Told),
    Fail(Cause),
    /// A step was undone.
    Undone,
}

impl Copied for Answer {
    fn copy(&self, _alloc: Global) -> Result<Answer, AllocError> {
        Ok(*self)
    }
}

impl Same for Answer {
    fn same(&self, other: &Answer) -> bool {
        match self {
            Answer::More(row) => match other {
                Answer::More(other_row) => row == other_row,
                _ => false,
            },
            Answer::Wait(row) => match other {
                Answer::Wait(other_row) => row == other_row,
                _ => false,
            },
            Answer::Await(row) => match other {
                Answer::Await(other_row) => row == other_row,
                _ => false,
            },
            Answer::Done(told) => match other {
                Answer::Done(other_told) => told.same(other_told),
                _ => false,
            },
            Answer::Fail(cause) => match other {
                Answer::Fail(other_cause) => cause.same(other_cause),
                _ => false,
            },
            Answer::Undone => matches!(other, Answer::Undone),
        }
    }
}
