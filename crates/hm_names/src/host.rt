ghost use Rattle.std.specs.Prelude.{◌≡◌, ◌+◌, ◌<◌, ◌^◌, IfOk, length, position, not};
ghost use Rattle.hm_names.specs.Names.{IsHost, host_fault, read_host, is_host_byte as host_byte};
ghost use Rattle.hm_names.specs.Reading.{Answers};

use crate::bytes::NameBytes;
use crate::copied::Copied;
use crate::fault::NameFault;
use crate::part::part_fault;
use crate::same::Same;
use std::alloc::{AllocError, Global};
use std::fmt;
use std::marker::Model;

/// The name of a host: 1 to 64 lower-case letters, digits, `-` and `.`. Contracts see its bytes.
#[derive(Debug, Drop, PartialEq, Eq, PartialOrd, Ord)]
pub struct Host {
    bytes: NameBytes,
}

impl Model for Host {
    ghost use Rattle.std.specs.Prelude.{List, ℕ};
    ghost use Rattle.hm_names.specs.Names.{IsHost};

    ghost Value = { List ℕ };

    ghost view = { λ s. s.bytes };

    ghost invariant = { λ s. IsHost s.bytes };

    ghost inverse = { λ v. record { bytes = v } };
}

fn is_host_byte(b: u8) -> bool
    ensures { result ≡ host_byte b }
{
    matches!(b, b'0'..=b'9' | b'a'..=b'z' | b'-' | b'.')
}

fn first_wrong(bytes: &[u8]) -> Option<usize>
    ensures { result ≡ position (λ b. not (host_byte b)) bytes.now }
{
    bytes.iter().position(|b| !is_host_byte(*b))
}

// The fault of a host that stands at a place of a text.
pub fn fault_of_host(at: u64, bytes: &[u8]) -> Option<NameFault>
    requires { at + length bytes.now < 2 ^ 64 }
    ensures { result ≡ host_fault at bytes.now }
{
    part_fault(64, at, bytes, first_wrong(bytes))
}

impl Host {
    /// The name with these bytes.
    pub fn of(alloc: Global, bytes: &[u8]) -> Result<Host, NameFault>
        ensures { Answers result (read_host bytes.now) }
    {
        if let Some(fault) = fault_of_host(0, bytes) {
            return Err(fault);
        }
        Ok(Host::made(alloc, bytes)?)
    }

    // The name with these bytes, which were judged before.
    pub(crate) fn made(alloc: Global, bytes: &[u8]) -> Result<Host, AllocError>
        requires { IsHost bytes.now }
        ensures { IfOk result (λ x. x ≡ bytes.now) }
    {
        let bytes = NameBytes::of(alloc, bytes)?;
        Ok(Host { bytes })
    }

    /// The bytes of the name, which are its text.
    pub fn as_bytes(&self) -> &[u8]
        ensures value { result.now ≡ self.now }
        ensures named { IsHost self.now }
    {
        self.bytes.as_bytes()
    }
}

impl fmt::Display for Host {
    ghost use Rattle.std.specs.Prelude.{Some};

    ghost output = { λ s. Some s };

    fn fmt<W: fmt::Write>(&self, f: &mut fmt::Formatter<W>) -> fmt::Result {
        self.bytes.fmt(f)
    }
}

impl Copied for Host {
    fn copy(&self, alloc: Global) -> Result<Host, AllocError> {
        let bytes = self.bytes.copy(alloc)?;
        Ok(Host { bytes })
    }
}

impl Same for Host {
    fn same(&self, other: &Host) -> bool {
        self == other
    }
}
