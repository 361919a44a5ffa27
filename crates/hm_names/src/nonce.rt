ghost use Rattle.std.specs.Prelude.{◌≡◌, ◌++◌, OnOk, OnErr, IfOk, Ok};

use crate::copied::Copied;
use crate::cut::cut_first;
use crate::decimal::parse_decimal;
use crate::fault::NameFault;
use crate::same::Same;
use hm_hints::Hinted;
use std::alloc::{AllocError, Global};
use std::fmt;

/// A number that a client gives with its requests. The number 0 means none, whatever the group.
#[derive(Clone, Copy, Debug, PartialEq, Eq, PartialOrd, Ord)]
pub struct Nonce {
    pub group: u64,
    pub number: u64,
}

impl Nonce {
    ghost use Rattle.hm_names.specs.Nonces.{nonce_text, read_nonce};

    /// The nonce of a text `GROUP:NUMBER`, two decimals. It takes no memory.
    pub fn parse(_alloc: Global, text: &[u8]) -> Result<Nonce, NameFault>
        ensures reading { result ≡ read_nonce text.now }
        ensures spelled { IfOk result (λ v. text.now ≡ nonce_text v) }
    {
        if text.is_empty() {
            return Err(NameFault::Empty);
        }
        let Some((group, number)) = cut_first(text, b':') else {
            return Err(NameFault::BadNumber(text.len() as u64));
        };
        let place = group.len() as u64 + 1;
        let Some(group) = parse_decimal(group) else {
            return Err(NameFault::BadNumber(0));
        };
        let Some(number) = parse_decimal(number) else {
            return Err(NameFault::BadNumber(place));
        };
        Ok(Nonce { group, number })
    }

    // The numbers fit 64 bits, so the text is read as the nonce: a law that does nothing.
    fn named(&self)
        ensures { read_nonce (nonce_text self.now) ≡ Ok self.now }
    {
        let _group = self.group;
        let _number = self.number;
    }

    /// Appends the text, all of it or nothing.
    pub fn write(&self, alloc: Global, out: &mut Vec<u8>) -> Result<(), AllocError>
        ensures written { OnOk result (out.new.items ≡ out.old.items ++ nonce_text self.now) }
        ensures kept { OnErr result (out.new.items ≡ out.old.items) }
        ensures reads_back { read_nonce (nonce_text self.now) ≡ Ok self.now }
    {
        self.named();
        let text = self.to_string(alloc)?;
        out.extend_from_slice(text.as_bytes())
    }
}

impl fmt::Display for Nonce {
    ghost use Rattle.std.specs.Prelude.{Some};
    ghost use Rattle.hm_names.specs.Nonces.{nonce_text};

    ghost output = { λ v. Some (nonce_text v) };

    fn fmt<W: fmt::Write>(&self, f: &mut fmt::Formatter<W>) -> fmt::Result {
        let group = self.group;
        let number = self.number;
        write!(f, "{group}:{number}")
    }
}

impl Copied for Nonce {
    fn copy(&self, _alloc: Global) -> Result<Nonce, AllocError> {
        Ok(*self)
    }
}

impl Same for Nonce {
    fn same(&self, other: &Nonce) -> bool {
        self == other
    }
}

impl Hinted for Nonce {
    ghost use Rattle.hm_names.specs.Hints.{nonce_hint};
    ghost use Rattle.hm_names.specs.HintLaws.{nonces_rise};

    ghost hint_of = { nonce_hint };

    ghost rises = { nonces_rise };

    fn own_hint(&self) -> u64 {
        if self.group < 0x1_0000 {
            self.group * 0x1_0000_0000_0000 + self.number.min(0xFFFF_FFFF_FFFF)
        } else {
            u64::MAX
        }
    }
}
