//! Findings, and how they are added to others.
ghost use Rattle.std.specs.Prelude.{◌≡◌, ◌++◌, IfOk, OnOk};
ghost use Rattle.std.specs.Cmp.{IsTotalOrder};
ghost use Rattle.hm_hbck.specs.Findings.{finding_cmp};
ghost use Rattle.hm_hbck.specs.Found.{at, only_if};
ghost use Rattle.hm_hbck.specs.declared.finding.Finding.{Finding as FindingValue};

use hm_names::{Copied, RegionName, RowKey, ServerName, TableName};
use std::alloc::{AllocError, Global};

/// What is inconsistent. Findings order by their kinds, in this order, and then by the names that they are told with.
#[derive(Debug, Drop, PartialEq, Eq, PartialOrd, Ord)]
pub enum Finding {
    /// The least key that no live region of a table holds.
    Hole {
        table: TableName,
        key: RowKey,
    },
    /// Two live regions of a table whose ranges overlap.
    Overlap {
        one: RegionName,
        other: RegionName,
    },
    /// A region that is open at a server, which runs and doesn't hold it.
    NotHeld {
        region: RegionName,
        server: ServerName,
    },
    /// A region that is open at a live server, which doesn't run.
    NoActor {
        region: RegionName,
        server: ServerName,
    },
    /// A region that is held by a server at which its place isn't.
    Stray {
        region: RegionName,
        server: ServerName,
    },
    /// Two regions that are held, each at its server, and have a row in common.
    Twice {
        one: RegionName,
        at: ServerName,
        other: RegionName,
        there: ServerName,
    },
    /// A region that is held and isn't live.
    NoRow {
        region: RegionName,
        server: ServerName,
    },
    /// A region whose place is at a server that isn't live.
    DeadPlace {
        region: RegionName,
        server: ServerName,
    },
}

// What is found of a region at a server.
#[derive(Clone, Copy)]
pub(crate) enum Kind {
    NotHeld,
    NoActor,
    Stray,
    NoRow,
    DeadPlace,
}

// The finding of a kind.
fn finding_at(kind: Kind, region: RegionName, server: ServerName) -> Finding
    ensures { result ≡ at kind region server }
{
    match kind {
        Kind::NotHeld => Finding::NotHeld { region, server },
        Kind::NoActor => Finding::NoActor { region, server },
        Kind::Stray => Finding::Stray { region, server },
        Kind::NoRow => Finding::NoRow { region, server },
        Kind::DeadPlace => Finding::DeadPlace { region, server },
    }
}

// Adds the finding of a kind, where it is so.
pub(crate) fn add_if(
    alloc: Global,
    so: bool,
    kind: Kind,
    region: &RegionName,
    server: &ServerName,
    found: &mut Vec<Finding>,
) -> Result<(), AllocError>
    ensures { OnOk result (found.new.items ≡ found.old.items ++ only_if so (at kind region.now server.now)) }
{
    if so {
        let region = region.copy(alloc)?;
        let server = server.copy(alloc)?;
        found.push(finding_at(kind, region, server))?;
    }
    Ok(())
}

// Findings order by kind and name, which is a total order: a law that does nothing.
pub(crate) fn findings_order()
    ensures order { (a b : FindingValue) → ⟦<Finding as Ord>⟧.cmp a b ≡ finding_cmp a b }
{}
