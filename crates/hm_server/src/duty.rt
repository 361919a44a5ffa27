use hm_data::Told;
use hm_names::Pid;

/// What a server last served about a region.
#[derive(Clone, Copy, Debug, Drop, PartialEq, Eq)]
pub struct Duty {
    /// The call.
    pub id: Pid,
    pub told: Told,
    /// It holds the region since.
    pub holds: bool,
}
