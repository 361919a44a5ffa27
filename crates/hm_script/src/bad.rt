//! What is wrong with a script.
ghost use Rattle.std.specs.Prelude.{◌≡◌, Some};

use hm_names::NameFault;
use std::alloc::{AllocError, AllocFailed};
use std::fmt;
use thiserror::Error;

/// What is wrong with a line of a script.
#[derive(Clone, Copy, Debug, PartialEq, Eq, Error)]
pub enum Why {
    /// A word at this place of the line isn't one that may stand there.
    Word(u64),
    /// A word is missing.
    Missing,
    /// There is a word too many.
    Extra,
    /// A word is no name of its kind.
    Name(NameFault),
    /// A word is no number in its range.
    Number,
    /// The command may stand first alone.
    Order,
    /// The script is longer than 1,048,576 bytes.
    TooLong,
    /// Memory ran out.
    Memory,
}

impl fmt::Display for Why {
    ghost use Rattle.hm_script.specs.Faults.{why_text};

    ghost output = { λ w. Some (why_text w) };

    fn fmt<W: fmt::Write>(&self, f: &mut fmt::Formatter<W>) -> fmt::Result {
        match self {
            Why::Word(at) => write!(f, "Word {at}"),
            Why::Missing => f.write_str("Missing"),
            Why::Extra => f.write_str("Extra"),
            Why::Name(NameFault::Empty) => f.write_str("Name Empty"),
            Why::Name(NameFault::TooLong(length)) => write!(f, "Name TooLong {length}"),
            Why::Name(NameFault::BadByte(at)) => write!(f, "Name BadByte {at}"),
            Why::Name(NameFault::BadNumber(at)) => write!(f, "Name BadNumber {at}"),
            Why::Name(NameFault::Memory) => f.write_str("Name Memory"),
            Why::Number => f.write_str("Number"),
            Why::Order => f.write_str("Order"),
            Why::TooLong => f.write_str("TooLong"),
            Why::Memory => f.write_str("Memory"),
        }
    }
}

impl From<NameFault> for Why {
    ghost use Rattle.hm_script.specs.Faults.{why_of};

    ghost from_gives = { λ fault why. why ≡ why_of fault };

    fn from(fault: NameFault) -> Why {
        match fault {
            NameFault::Memory => Why::Memory,
            _ => Why::Name(fault),
        }
    }
}

impl From<AllocError> for Why {
    ghost use Rattle.hm_script.specs.declared.bad.Why.TheVariants.{Memory};

    ghost from_gives = { λ _ why. why ≡ Memory };

    fn from(_: AllocError) -> Why {
        Why::Memory
    }
}

impl<T: Drop> From<AllocFailed<T>> for Why {
    ghost use Rattle.hm_script.specs.declared.bad.Why.TheVariants.{Memory};

    ghost from_gives = { λ _ why. why ≡ Memory };

    fn from(_: AllocFailed<T>) -> Why {
        Why::Memory
    }
}

/// The first line of a script that can't be read. Lines are numbered from 1; line 0 stands for the
/// script as a whole.
#[derive(Clone, Copy, Debug, PartialEq, Eq, Error)]
pub struct Bad {
    pub line: u64,
    pub why: Why,
}

impl fmt::Display for Bad {
    ghost use Rattle.hm_script.specs.Faults.{bad_text};

    ghost output = { λ b. Some (bad_text b) };

    fn fmt<W: fmt::Write>(&self, f: &mut fmt::Formatter<W>) -> fmt::Result {
        let line = self.line;
        let why = self.why;
        write!(f, "line {line}: {why}")
    }
}
