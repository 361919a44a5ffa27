ghost use Rattle.std.specs.Prelude.{◌≡◌, ◌++◌, IfOk, OnOk, OnErr, MatchResult, Ok, Err};
ghost use Rattle.hm_names.specs.Names.{IsNs, IsQualifier};
ghost use Rattle.hm_names.specs.Reading.{Answers};
ghost use Rattle.std.proofs.Common.{rules};

use crate::copied::Copied;
use crate::cut::cut_first;
use crate::fault::NameFault;
use crate::ns::{Ns, fault_of_ns};
use crate::qualifier::{Qualifier, fault_of_qualifier};
use crate::same::Same;
use hm_hints::Hinted;
use std::alloc::{AllocError, Global};
use std::fmt;

/// The name of a table. Its text is `NS:QUALIFIER`, or the qualifier alone in the namespace `default`.
#[derive(Debug, Drop, PartialEq, Eq, PartialOrd, Ord)]
pub struct TableName {
    pub ns: Ns,
    pub qualifier: Qualifier,
}

impl TableName {
    ghost use Rattle.hm_names.specs.Tables.{IsTable, table_text, read_table};

    /// The table that a text names; the first `:` separates.
    pub fn parse(alloc: Global, text: &[u8]) -> Result<TableName, NameFault>
        ensures { Answers result (read_table text.now) }
    {
        let (ns, qualifier) = TableName::judged(text)?;
        Ok(TableName::made(alloc, ns, qualifier)?)
    }

    // The namespace and the qualifier of a text that names a table.
    #[tactic(auto, unfolding(crate::specs::Tables::read_table), using(crate::proofs::Names::moved))]
    pub(crate) fn judged(text: &[u8]) -> Result<(&[u8], &[u8]), NameFault>
        ensures reading { MatchResult result
            (λ p. read_table text.now ≡ Ok (record { ns = p.0.now; qualifier = p.1.now }))
            (λ e. read_table text.now ≡ Err e) }
        ensures named { IfOk result (λ p. IsNs p.0.now × IsQualifier p.1.now) }
    {
        let Some((ns, qualifier)) = cut_first(text, b':') else {
            return match fault_of_qualifier(0, text) {
                Some(fault) => Err(fault),
                None => Ok((b"default", text)),
            };
        };
        if ns.is_empty() || qualifier.is_empty() {
            return Err(NameFault::Empty);
        }
        if let Some(fault) = fault_of_ns(0, ns) {
            return Err(fault);
        }
        match fault_of_qualifier(ns.len() as u64 + 1, qualifier) {
            Some(fault) => Err(fault),
            None => Ok((ns, qualifier)),
        }
    }

    // The table of two parts, which were judged before.
    pub(crate) fn made(alloc: Global, ns: &[u8], qualifier: &[u8]) -> Result<TableName, AllocError>
        requires ns { IsNs ns.now }
        requires qualifier { IsQualifier qualifier.now }
        ensures { IfOk result (λ t. t ≡ record { ns = ns.now; qualifier = qualifier.now }) }
    {
        let ns = Ns::made(alloc, ns)?;
        let qualifier = Qualifier::made(alloc, qualifier)?;
        Ok(TableName { ns, qualifier })
    }

    // The parts are names, so the text is read as the table: a law that does nothing.
    pub(crate) fn named(&self)
        ensures named { IsTable self.now }
        ensures reads_back { read_table (table_text self.now) ≡ Ok self.now }
    {
        let _ns = self.ns.as_bytes();
        let _qualifier = self.qualifier.as_bytes();
    }

    /// Appends the text, all of it or nothing.
    pub fn write(&self, alloc: Global, out: &mut Vec<u8>) -> Result<(), AllocError>
        ensures written { OnOk result (out.new.items ≡ out.old.items ++ table_text self.now) }
        ensures kept { OnErr result (out.new.items ≡ out.old.items) }
        ensures reads_back { read_table (table_text self.now) ≡ Ok self.now }
    {
        self.named();
        let text = self.to_string(alloc)?;
        out.extend_from_slice(text.as_bytes())
    }
}

impl fmt::Display for TableName {
    ghost use Rattle.std.specs.Prelude.{Some};
    ghost use Rattle.hm_names.specs.Tables.{table_text};

    ghost output = { λ t. Some (table_text t) };

    fn fmt<W: fmt::Write>(&self, f: &mut fmt::Formatter<W>) -> fmt::Result {
        let ns = &self.ns;
        let qualifier = &self.qualifier;
        if ns.as_bytes() == b"default".as_slice() {
            write!(f, "{qualifier}")
        } else {
            write!(f, "{ns}:{qualifier}")
        }
    }
}

impl Copied for TableName {
    fn copy(&self, alloc: Global) -> Result<TableName, AllocError> {
        let ns = self.ns.copy(alloc)?;
        let qualifier = self.qualifier.copy(alloc)?;
        Ok(TableName { ns, qualifier })
    }
}

impl Same for TableName {
    fn same(&self, other: &TableName) -> bool {
        self == other
    }
}

impl Hinted for TableName {
    ghost hint_of = { λ name. 0 };

    ghost rises = { Prim.search rules };

    fn own_hint(&self) -> u64 {
        0
    }
}
