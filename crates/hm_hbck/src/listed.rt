//! All findings.
ghost use Rattle.std.specs.Prelude.{◌≡◌, ◌↔◌, IfOk};
ghost use Rattle.hm_model.specs.Findings.{IsSo};
ghost use Rattle.hm_model.specs.Locks.{IsIn};
ghost use Rattle.hm_hbck.specs.Findings.{AreFindings, NamesDiffer, running, said};
ghost use Rattle.hm_hbck.specs.declared.finding.Finding.{Finding as FindingValue};

use crate::crew::crew_of;
use crate::finding::{Finding, findings_order};
use crate::holdings::{add_holdings, holdings};
use crate::holes::add_holes;
use crate::pairs::add_pairs;
use crate::places::add_places;
use crate::sorted::sort_once;
use hm_catalog::laws::rows_tell;
use hm_cover::live_regions_never_overlap;
use hm_names::List;
use hm_places::{places_follow, servers_follow};
use hm_server::Actor;
use hm_state::State;
use std::alloc::{AllocError, Global};

// All that is found, in no order, and some of it more than once. No two live regions of a table overlap.
fn gather(alloc: Global, state: &State, actors: &[Actor]) -> Result<Vec<Finding>, AllocError>
    requires { NamesDiffer actors.now }
    ensures { IfOk result (λ found. (finding : FindingValue) → IsIn finding found.items ↔ IsSo state.now.past (running actors.now) (said finding)) }
{
    rows_tell();
    places_follow();
    servers_follow();
    live_regions_never_overlap();
    state.journal();
    let catalog = state.catalog();
    let servers = state.servers();
    let places = state.places();
    let crew = crew_of(alloc, actors)?;
    let held = holdings(alloc, catalog, servers, actors)?;
    let mut found = Vec::new(alloc);
    add_holes(alloc, catalog, &mut found)?;
    add_places(alloc, servers, places, &crew, &mut found)?;
    add_holdings(alloc, places, &held, &mut found)?;
    add_pairs(alloc, held, &mut found)?;
    Ok(found)
}

/// What is inconsistent between the journal of a state and the servers that run, each once, in order. While a procedure is
/// unfinished that may be what it is about to mend. It takes time in the rows, the places and all that servers served a
/// call about, and in the pairs that are found, times a logarithm.
pub fn findings(alloc: Global, state: &State, actors: &[Actor]) -> Result<List<Finding>, AllocError>
    requires { NamesDiffer actors.now }
    ensures { IfOk result (λ list. AreFindings state.now.past (running actors.now) list) }
{
    findings_order();
    let mut found = gather(alloc, state, actors)?;
    sort_once(&mut found);
    Ok(List::of(found))
}
