ghost use Rattle.std.specs.Prelude.{◌≡◌, ◌==◌, IfOk};
ghost use Rattle.std.specs.Str.{IsAscii};
ghost use Rattle.std.proofs.Common.{rules};
ghost use Rattle.std.specs.Cmp.{partial_order_from_own_ties};
ghost use Rattle.std.specs.Cmp.Rules.{comparing};
ghost use Rattle.std.specs.Cmp.Lexicographic.{pointwise, slice_cmp};
ghost use Rattle.std.specs.Ordering.{nat_cmp, as_partial_cmp};

use crate::copied::Copied;
use std::alloc::{AllocError, Global};
use std::cmp::Ordering;
use std::marker::Model;
use std::{fmt, str};

// The ASCII bytes of a name, which print as they are.
#[derive(Debug, Drop)]
pub struct NameBytes {
    text: String,
}

impl Model for NameBytes {
    ghost use Rattle.std.specs.Prelude.{List, ℕ};
    ghost use Rattle.std.specs.String.{string_bytes};

    ghost Value = { List ℕ };

    ghost view = { λ s. string_bytes s.text };
}

impl NameBytes {
    pub fn of(alloc: Global, bytes: &[u8]) -> Result<NameBytes, AllocError>
        requires { IsAscii bytes.now }
        ensures { IfOk result (λ x. x ≡ bytes.now) }
    {
        match str::from_utf8(bytes) {
            Ok(text) => {
                let text = String::from_str(alloc, text)?;
                Ok(NameBytes { text })
            }
            Err(_) => unreachable!(),
        }
    }

    pub fn as_bytes(&self) -> &[u8]
        ensures { result.now ≡ self.now }
    {
        self.text.as_bytes()
    }
}

impl fmt::Display for NameBytes {
    ghost use Rattle.std.specs.Prelude.{Some};

    ghost output = { λ s. Some s };

    fn fmt<W: fmt::Write>(&self, f: &mut fmt::Formatter<W>) -> fmt::Result {
        f.write_str(self.text.as_str())
    }
}

impl Copied for NameBytes {
    fn copy(&self, alloc: Global) -> Result<NameBytes, AllocError> {
        let text = String::from_str(alloc, self.text.as_str())?;
        Ok(NameBytes { text })
    }
}

impl PartialEq for NameBytes {
    ghost eq = { pointwise ◌==◌ };

    ghost laws = { Prim.search (comparing, rules) };

    fn eq(&self, other: &NameBytes) -> bool {
        self.text.as_bytes() == other.text.as_bytes()
    }
}

impl Eq for NameBytes {
    ghost laws = { Prim.search (comparing, rules) };
}

impl PartialOrd for NameBytes {
    ghost partial_cmp = { as_partial_cmp (slice_cmp nat_cmp) };

    ghost laws = { partial_order_from_own_ties (Prim.search (comparing, rules)) (Prim.search (comparing, rules)) };

    fn partial_cmp(&self, other: &NameBytes) -> Option<Ordering> {
        Some(self.cmp(other))
    }
}

impl Ord for NameBytes {
    ghost cmp = { slice_cmp nat_cmp };

    ghost total = { Prim.search (comparing, rules) };

    ghost matches_partial_cmp = { Prim.search (comparing, rules) };

    ghost matches_eq = { Prim.search (comparing, rules) };

    fn cmp(&self, other: &NameBytes) -> Ordering {
        self.text.as_bytes().cmp(other.text.as_bytes())
    }
}
