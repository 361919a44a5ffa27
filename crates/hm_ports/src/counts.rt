//! The failure of a device, and its counts.
ghost use Rattle.std.specs.Prelude.{◌≡◌, ◌≤◌, ◌↔◌, IsTrue, Contains};
ghost use Rattle.hm_ports.specs.Faults.{raised};

use thiserror::Error;

/// A device failed, and has counted it.
#[derive(Clone, Copy, Debug, PartialEq, Eq, Error)]
#[error("the device failed")]
pub struct Failed;

/// Raises a count by one. At the end of its type it stays.
pub fn raise(count: &mut u64)
    ensures raised { count.new ≡ raised count.old }
    ensures later { count.old ≤ count.new }
{
    *count = count.saturating_add(1);
}

/// Whether the call that begins now is one of those that are to fail. It is counted. Calls are
/// numbered from 0.
pub fn next_call_fails(calls: &mut u64, fails: &[u64]) -> bool
    ensures listed { IsTrue result ↔ Contains fails.now calls.old }
    ensures counted { calls.new ≡ raised calls.old }
{
    let listed = fails.contains(calls);
    raise(calls);
    listed
}
