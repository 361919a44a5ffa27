//! What a claim hands out, and what becomes of it.
use hm_data::StepIn;
use hm_names::Pid;

/// A procedure that is claimed, and what the next call of its handler sees. It is given back with an answer, or put back.
pub struct Taken {
    pub pid: Pid,
    pub was: StepIn,
}

/// What became of an answer.
#[derive(Drop)]
pub enum Given {
    /// It was recorded in this place behind the base.
    Kept(u64),
    /// It was made for an input that isn't the procedure's any more; the claim is given up.
    Stale { was: StepIn, now: StepIn },
}
