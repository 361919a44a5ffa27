//! The rules of a submission.
ghost use Rattle.std.specs.Prelude.{◌≡◌, ◌↔◌, ◌≤◌, IsTrue};
ghost use Rattle.hm_model.specs.Requests.{MaySubmit, StaysWithin};
ghost use Rattle.hm_model.specs.Rules.{IsFresh};
ghost use Rattle.hm_model.specs.Tree.{drawn as ids_so_far};

use hm_catalog::wrong_in;
use hm_data::Request;
use hm_names::{Nonce, TableName};
use hm_records::{Records, new_ids, table_of_request};

// The greatest number of region ids that may be drawn for a table.
const MOST_IDS: u64 = 4096;

/// Whether nothing is wrong with a request by itself.
pub(crate) fn may_submit(request: &Request) -> bool
    ensures { IsTrue result ↔ MaySubmit request.now }
{
    wrong_in(request).is_none()
}

/// Whether the nonce is none, or nothing was submitted under it.
pub(crate) fn is_fresh(records: &Records, nonce: &Nonce) -> bool
    ensures { IsTrue result ↔ IsFresh records.now.past nonce.now }
{
    nonce.number == 0 || records.by_nonce(nonce).is_none()
}

/// Whether the region ids drawn for the table of a request stay within the limit.
pub(crate) fn stays_within(records: &Records, request: &Request) -> bool
    ensures { IsTrue result ↔ StaysWithin records.now.past request.now }
{
    match table_of_request(request) {
        Some(table) => new_ids(request) <= MOST_IDS - drawn(records, table),
        None => true,
    }
}

// How many region ids were drawn for a table: no more than the limit.
fn drawn(records: &Records, table: &TableName) -> u64
    ensures drawn { result ≡ ids_so_far records.now.past table.now }
    ensures few { result ≤ 4096 }
{
    let _procedures = records.procedures();
    records.drawn(table)
}
