//! What the records of a whole base have: the namespaces, tables that are covered, and regions that are served.
ghost use Rattle.std.specs.Prelude.{◌↔◌, IfOk, IsTrue};
ghost use Rattle.hm_model.specs.Catalog.{cat};
ghost use Rattle.hm_base.specs.Whole.{AreCovered, AreServed, HasSpaces};

use crate::cover::have_no_holes;
use crate::served::are_served;
use crate::spaces::has_spaces;
use hm_catalog::laws::rows_tell;
use hm_places::{places_follow, servers_follow};
use hm_ranges::ranges_tell;
use hm_records::Records;
use std::alloc::{AllocError, Global};

// Whether the two namespaces are there.
pub(crate) fn spaces_there(alloc: Global, records: &Records) -> Result<bool, AllocError>
    ensures { IfOk result (λ there. IsTrue there ↔ HasSpaces (cat records.now.past)) }
{
    rows_tell();
    has_spaces(alloc, records.catalog())
}

// Whether each table that is there is covered.
pub(crate) fn tables_covered(alloc: Global, records: &Records) -> Result<bool, AllocError>
    ensures { IfOk result (λ covered. IsTrue covered ↔ AreCovered (cat records.now.past)) }
{
    ranges_tell();
    have_no_holes(alloc, records.catalog())
}

// Whether each region that is open is so at a live server, and none is being opened or closed.
pub(crate) fn regions_served(records: &Records) -> bool
    ensures { IsTrue result ↔ AreServed records.now.past }
{
    places_follow();
    servers_follow();
    let _legal = records.procedures();
    are_served(records.servers(), records.places())
}
