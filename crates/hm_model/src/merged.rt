//! The regions of a merge.
use hm_names::KeyRange;

/// A region that is merged, by its id, and its range.
#[derive(Debug, Drop)]
pub struct Merged {
    pub id: u64,
    pub range: KeyRange,
}
