ghost use Rattle.std.specs.Prelude.{◌≡◌, ◌+◌, ◌<◌, ◌^◌, IfOk, length, position, not};
ghost use Rattle.hm_names.specs.Names.{IsQualifier, first_wrong_of_qualifier, qualifier_fault, read_qualifier, is_qualifier_byte as qualifier_byte};
ghost use Rattle.hm_names.specs.Reading.{Answers};

use crate::bytes::NameBytes;
use crate::copied::Copied;
use crate::fault::NameFault;
use crate::part::part_fault;
use crate::same::Same;
use std::alloc::{AllocError, Global};
use std::fmt;
use std::marker::Model;

/// The name of a table in its namespace: 1 to 128 letters, digits, `_`, `-` and `.`, of which the
/// first is neither `-` nor `.`. Contracts see its bytes.
#[derive(Debug, Drop, PartialEq, Eq, PartialOrd, Ord)]
pub struct Qualifier {
    bytes: NameBytes,
}

impl Model for Qualifier {
    ghost use Rattle.std.specs.Prelude.{List, ℕ};
    ghost use Rattle.hm_names.specs.Names.{IsQualifier};

    ghost Value = { List ℕ };

    ghost view = { λ s. s.bytes };

    ghost invariant = { λ s. IsQualifier s.bytes };

    ghost inverse = { λ v. record { bytes = v } };
}

fn is_qualifier_byte(b: u8) -> bool
    ensures { result ≡ qualifier_byte b }
{
    matches!(b, b'0'..=b'9' | b'A'..=b'Z' | b'a'..=b'z' | b'_' | b'-' | b'.')
}

fn first_other(bytes: &[u8]) -> Option<usize>
    ensures { result ≡ position (λ b. not (qualifier_byte b)) bytes.now }
{
    bytes.iter().position(|b| !is_qualifier_byte(*b))
}

fn first_wrong(bytes: &[u8]) -> Option<usize>
    ensures { result ≡ first_wrong_of_qualifier bytes.now }
{
    match bytes {
        [b'-' | b'.', ..] => Some(0),
        _ => first_other(bytes),
    }
}

// The fault of a qualifier that stands at a place of a text.
pub fn fault_of_qualifier(at: u64, bytes: &[u8]) -> Option<NameFault>
    requires { at + length bytes.now < 2 ^ 64 }
    ensures { result ≡ qualifier_fault at bytes.now }
{
    part_fault(128, at, bytes, first_wrong(bytes))
}

impl Qualifier {
    /// The name with these bytes.
    pub fn of(alloc: Global, bytes: &[u8]) -> Result<Qualifier, NameFault>
        ensures { Answers result (read_qualifier bytes.now) }
    {
        if let Some(fault) = fault_of_qualifier(0, bytes) {
            return Err(fault);
        }
        Ok(Qualifier::made(alloc, bytes)?)
    }

    // The name with these bytes, which were judged before.
    pub(crate) fn made(alloc: Global, bytes: &[u8]) -> Result<Qualifier, AllocError>
        requires { IsQualifier bytes.now }
        ensures { IfOk result (λ x. x ≡ bytes.now) }
    {
        let bytes = NameBytes::of(alloc, bytes)?;
        Ok(Qualifier { bytes })
    }

    /// The bytes of the name, which are its text.
    pub fn as_bytes(&self) -> &[u8]
        ensures value { result.now ≡ self.now }
        ensures named { IsQualifier self.now }
    {
        self.bytes.as_bytes()
    }
}

impl fmt::Display for Qualifier {
    ghost use Rattle.std.specs.Prelude.{Some};

    ghost output = { λ s. Some s };

    fn fmt<W: fmt::Write>(&self, f: &mut fmt::Formatter<W>) -> fmt::Result {
        self.bytes.fmt(f)
    }
}

impl Copied for Qualifier {
    fn copy(&self, alloc: Global) -> Result<Qualifier, AllocError> {
        let bytes = self.bytes.copy(alloc)?;
        Ok(Qualifier { bytes })
    }
}

impl Same for Qualifier {
    fn same(&self, other: &Qualifier) -> bool {
        self == other
    }
}
