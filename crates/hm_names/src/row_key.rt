ghost use Rattle.std.specs.Prelude.{◌≡◌, ◌==◌, ◌++◌, OnOk, OnErr, Ok};
ghost use Rattle.std.proofs.Common.{rules};
ghost use Rattle.std.specs.Cmp.{partial_order_from_own_ties};
ghost use Rattle.std.specs.Cmp.Rules.{comparing};
ghost use Rattle.std.specs.Cmp.Lexicographic.{pointwise, slice_cmp};
ghost use Rattle.std.specs.Ordering.{nat_cmp, as_partial_cmp};
ghost use Rattle.hm_names.specs.Keys.{IsByteString, IsRowKey, limited};
ghost use Rattle.hm_names.specs.Reading.{Answers};

use crate::copied::Copied;
use crate::escape::{ByteText, key_length, key_of};
use crate::fault::NameFault;
use crate::same::Same;
use std::alloc::{AllocError, Global};
use std::cmp::Ordering;
use std::fmt;
use std::marker::Model;

/// The key of a row: at most 128 bytes of any value. Keys order by their bytes. The empty key is
/// `\-` as a text; in any other a byte from 0x21 to 0x7E but `\` stands for itself, and any byte
/// may stand as `\x` and two hexadecimal digits.
#[derive(Debug, Drop)]
pub struct RowKey {
    bytes: Vec<u8>,
}

impl Model for RowKey {
    ghost use Rattle.std.specs.Prelude.{List, ℕ};
    ghost use Rattle.hm_names.specs.Keys.{IsRowKey};

    ghost Value = { List ℕ };

    ghost view = { λ s. s.bytes.items };

    ghost invariant = { λ s. IsRowKey s.bytes.items };
}

// Each item of a slice of bytes fits eight bits: a law that does nothing.
fn are_bytes(bytes: &[u8])
    ensures { IsByteString bytes.now }
{}

impl RowKey {
    ghost use Rattle.hm_names.specs.Keys.{key_text, read_key};

    /// The key with these bytes.
    pub fn of(alloc: Global, bytes: &[u8]) -> Result<RowKey, NameFault>
        ensures { Answers result (limited bytes.now) }
    {
        if bytes.len() > 128 {
            return Err(NameFault::TooLong(bytes.len() as u64));
        }
        let bytes = Vec::from_slice(alloc, bytes)?;
        Ok(RowKey { bytes })
    }

    /// The key that a text stands for. The limit counts the key's bytes, not the text's.
    pub fn parse(alloc: Global, text: &[u8]) -> Result<RowKey, NameFault>
        ensures { Answers result (read_key text.now) }
    {
        if text.is_empty() {
            return Err(NameFault::Empty);
        }
        if text == b"\\-".as_slice() {
            return Ok(RowKey {
                bytes: Vec::new(alloc),
            });
        }
        let length = key_length(text)?;
        if length > 128 {
            return Err(NameFault::TooLong(length as u64));
        }
        let bytes = key_of(alloc, text, length)?;
        Ok(RowKey { bytes })
    }

    /// The bytes of the key, which aren't its text.
    pub fn as_bytes(&self) -> &[u8]
        ensures value { result.now ≡ self.now }
        ensures named { IsRowKey self.now }
    {
        self.bytes.as_slice()
    }

    // The key is of bytes, so the text is read as the key: a law that does nothing.
    fn named(&self)
        ensures { read_key (key_text self.now) ≡ Ok self.now }
    {
        are_bytes(self.bytes.as_slice());
    }

    /// Appends the text, all of it or nothing.
    pub fn write(&self, alloc: Global, out: &mut Vec<u8>) -> Result<(), AllocError>
        ensures written { OnOk result (out.new.items ≡ out.old.items ++ key_text self.now) }
        ensures kept { OnErr result (out.new.items ≡ out.old.items) }
        ensures reads_back { read_key (key_text self.now) ≡ Ok self.now }
    {
        self.named();
        let text = self.to_string(alloc)?;
        out.extend_from_slice(text.as_bytes())
    }
}

impl fmt::Display for RowKey {
    ghost use Rattle.std.specs.Prelude.{Some};
    ghost use Rattle.hm_names.specs.Keys.{key_text};

    ghost output = { λ key. Some (key_text key) };

    fn fmt<W: fmt::Write>(&self, f: &mut fmt::Formatter<W>) -> fmt::Result {
        if self.bytes.is_empty() {
            return f.write_str("\\-");
        }
        for b in &self.bytes {
            let text = ByteText(*b);
            write!(f, "{text}")?;
        }
        Ok(())
    }
}

impl Copied for RowKey {
    fn copy(&self, alloc: Global) -> Result<RowKey, AllocError> {
        let bytes = Vec::from_slice(alloc, self.bytes.as_slice())?;
        Ok(RowKey { bytes })
    }
}

impl PartialEq for RowKey {
    ghost eq = { pointwise ◌==◌ };

    ghost laws = { Prim.search (comparing, rules) };

    fn eq(&self, other: &RowKey) -> bool {
        self.bytes.as_slice() == other.bytes.as_slice()
    }
}

impl Eq for RowKey {
    ghost laws = { Prim.search (comparing, rules) };
}

impl PartialOrd for RowKey {
    ghost partial_cmp = { as_partial_cmp (slice_cmp nat_cmp) };

    ghost laws = { partial_order_from_own_ties (Prim.search (comparing, rules)) (Prim.search (comparing, rules)) };

    fn partial_cmp(&self, other: &RowKey) -> Option<Ordering> {
        Some(self.cmp(other))
    }
}

impl Ord for RowKey {
    ghost cmp = { slice_cmp nat_cmp };

    ghost total = { Prim.search (comparing, rules) };

    ghost matches_partial_cmp = { Prim.search (comparing, rules) };

    ghost matches_eq = { Prim.search (comparing, rules) };

    fn cmp(&self, other: &RowKey) -> Ordering {
        self.bytes.as_slice().cmp(other.bytes.as_slice())
    }
}

impl Same for RowKey {
    fn same(&self, other: &RowKey) -> bool {
        self == other
    }
}
