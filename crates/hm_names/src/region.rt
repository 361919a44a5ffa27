ghost use Rattle.std.specs.Prelude.{◌≡◌, ◌≤◌, ◌++◌, IfOk, OnOk, OnErr, MatchResult, Ok, Err};
ghost use Rattle.hm_names.specs.Names.{IsNs, IsQualifier};
ghost use Rattle.hm_names.specs.Reading.{Answers};
ghost use Rattle.std.proofs.Common.{rules};

use crate::copied::Copied;
use crate::cut::cut_last;
use crate::decimal::parse_within;
use crate::fault::NameFault;
use crate::same::Same;
use crate::table::TableName;
use hm_hints::Hinted;
use std::alloc::{AllocError, Global};
use std::fmt;
use std::marker::Model;

/// The name of a region: its table and a number from 1. Its text is `TABLE,ID`.
#[derive(Debug, Drop, PartialEq, Eq, PartialOrd, Ord)]
pub struct RegionName {
    pub table: TableName,
    pub id: u64,
}

impl Model for RegionName {
    ghost use Rattle.std.specs.Prelude.{◌≤◌};
    ghost use Rattle.hm_names.specs.Region.{Region};

    ghost Value = { Region };

    ghost view = { λ s. record { table = s.table; id = s.id } };

    ghost invariant = { λ s. 1 ≤ s.id };

    ghost inverse = { λ v. record { table = v.table; id = v.id } };
}

impl RegionName {
    ghost use Rattle.hm_names.specs.Regions.{region_text, read_region};

    /// The region that a text names; the last `,` separates.
    pub fn parse(alloc: Global, text: &[u8]) -> Result<RegionName, NameFault>
        ensures { Answers result (read_region text.now) }
    {
        let ((ns, qualifier), id) = RegionName::judged(text)?;
        let table = TableName::made(alloc, ns, qualifier)?;
        Ok(RegionName { table, id })
    }

    // The parts of a text that names a region.
    fn judged(text: &[u8]) -> Result<((&[u8], &[u8]), u64), NameFault>
        ensures reading { MatchResult result
            (λ p. read_region text.now
            ≡ Ok (record { table = record { ns = p.0.0.now; qualifier = p.0.1.now }; id = p.1 }))
            (λ e. read_region text.now ≡ Err e) }
        ensures named { IfOk result (λ p. IsNs p.0.0.now × IsQualifier p.0.1.now × (1 ≤ p.1)) }
    {
        if text.is_empty() {
            return Err(NameFault::Empty);
        }
        let Some((table, id)) = cut_last(text, b',') else {
            return Err(NameFault::BadNumber(text.len() as u64));
        };
        let place = table.len() as u64 + 1;
        let parts = TableName::judged(table)?;
        match parse_within(1, u64::MAX, id) {
            Some(id) => Ok((parts, id)),
            None => Err(NameFault::BadNumber(place)),
        }
    }

    // The parts are names, so the text is read as the region: a law that does nothing.
    fn named(&self)
        ensures { read_region (region_text self.now) ≡ Ok self.now }
    {
        self.table.named();
        let _id = self.id;
    }

    /// Appends the text, all of it or nothing.
    pub fn write(&self, alloc: Global, out: &mut Vec<u8>) -> Result<(), AllocError>
        ensures written { OnOk result (out.new.items ≡ out.old.items ++ region_text self.now) }
        ensures kept { OnErr result (out.new.items ≡ out.old.items) }
        ensures reads_back { read_region (region_text self.now) ≡ Ok self.now }
    {
        self.named();
        let text = self.to_string(alloc)?;
        out.extend_from_slice(text.as_bytes())
    }
}

impl fmt::Display for RegionName {
    ghost use Rattle.std.specs.Prelude.{Some};
    ghost use Rattle.hm_names.specs.Regions.{region_text};

    ghost output = { λ r. Some (region_text r) };

    fn fmt<W: fmt::Write>(&self, f: &mut fmt::Formatter<W>) -> fmt::Result {
        let table = &self.table;
        let id = self.id;
        write!(f, "{table},{id}")
    }
}

impl Copied for RegionName {
    fn copy(&self, alloc: Global) -> Result<RegionName, AllocError> {
        Ok(RegionName {
            table: self.table.copy(alloc)?,
            id: self.id,
        })
    }
}

impl Same for RegionName {
    fn same(&self, other: &RegionName) -> bool {
        self == other
    }
}

impl Hinted for RegionName {
    ghost hint_of = { λ name. 0 };

    ghost rises = { Prim.search rules };

    fn own_hint(&self) -> u64 {
        0
    }
}
