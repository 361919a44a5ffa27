ghost use Rattle.std.specs.Prelude.{◌≡◌, ◌+◌, ◌<◌, ◌^◌, ◌++◌, IfOk, OnOk, OnErr, Ok, length, position, not};
ghost use Rattle.hm_names.specs.Names.{IsNs, ns_fault, read_ns, is_ns_byte as ns_byte};
ghost use Rattle.hm_names.specs.Reading.{Answers};

use crate::bytes::NameBytes;
use crate::copied::Copied;
use crate::fault::NameFault;
use crate::part::part_fault;
use crate::same::Same;
use std::alloc::{AllocError, Global};
use std::fmt;
use std::marker::Model;

/// The name of a namespace: 1 to 64 letters, digits and `_`. Contracts see its bytes.
#[derive(Debug, Drop, PartialEq, Eq, PartialOrd, Ord)]
pub struct Ns {
    bytes: NameBytes,
}

impl Model for Ns {
    ghost use Rattle.std.specs.Prelude.{List, ℕ};
    ghost use Rattle.hm_names.specs.Names.{IsNs};

    ghost Value = { List ℕ };

    ghost view = { λ s. s.bytes };

    ghost invariant = { λ s. IsNs s.bytes };

    ghost inverse = { λ v. record { bytes = v } };
}

fn is_ns_byte(b: u8) -> bool
    ensures { result ≡ ns_byte b }
{
    matches!(b, b'0'..=b'9' | b'A'..=b'Z' | b'a'..=b'z' | b'_')
}

fn first_wrong(bytes: &[u8]) -> Option<usize>
    ensures { result ≡ position (λ b. not (ns_byte b)) bytes.now }
{
    bytes.iter().position(|b| !is_ns_byte(*b))
}

// The fault of a namespace that stands at a place of a text.
pub fn fault_of_ns(at: u64, bytes: &[u8]) -> Option<NameFault>
    requires { at + length bytes.now < 2 ^ 64 }
    ensures { result ≡ ns_fault at bytes.now }
{
    part_fault(64, at, bytes, first_wrong(bytes))
}

impl Ns {
    /// The name with these bytes.
    pub fn of(alloc: Global, bytes: &[u8]) -> Result<Ns, NameFault>
        ensures { Answers result (read_ns bytes.now) }
    {
        if let Some(fault) = fault_of_ns(0, bytes) {
            return Err(fault);
        }
        Ok(Ns::made(alloc, bytes)?)
    }

    // The name with these bytes, which were judged before.
    pub(crate) fn made(alloc: Global, bytes: &[u8]) -> Result<Ns, AllocError>
        requires { IsNs bytes.now }
        ensures { IfOk result (λ x. x ≡ bytes.now) }
    {
        let bytes = NameBytes::of(alloc, bytes)?;
        Ok(Ns { bytes })
    }

    /// The namespace that a text names: its bytes are the name.
    pub fn parse(alloc: Global, text: &[u8]) -> Result<Ns, NameFault>
        ensures { Answers result (read_ns text.now) }
    {
        Ns::of(alloc, text)
    }

    /// The bytes of the name, which are its text.
    pub fn as_bytes(&self) -> &[u8]
        ensures value { result.now ≡ self.now }
        ensures named { IsNs self.now }
    {
        self.bytes.as_bytes()
    }

    /// Appends the text, all of it or nothing.
    pub fn write(&self, _alloc: Global, out: &mut Vec<u8>) -> Result<(), AllocError>
        ensures written { OnOk result (out.new.items ≡ out.old.items ++ self.now) }
        ensures kept { OnErr result (out.new.items ≡ out.old.items) }
        ensures reads_back { read_ns self.now ≡ Ok self.now }
    {
        out.extend_from_slice(self.bytes.as_bytes())
    }
}

impl fmt::Display for Ns {
    ghost use Rattle.std.specs.Prelude.{Some};

    ghost output = { λ s. Some s };

    fn fmt<W: fmt::Write>(&self, f: &mut fmt::Formatter<W>) -> fmt::Result {
        self.bytes.fmt(f)
    }
}

impl Copied for Ns {
    fn copy(&self, alloc: Global) -> Result<Ns, AllocError> {
        let bytes = self.bytes.copy(alloc)?;
        Ok(Ns { bytes })
    }
}

impl Same for Ns {
    fn same(&self, other: &Ns) -> bool {
        self == other
    }
}
