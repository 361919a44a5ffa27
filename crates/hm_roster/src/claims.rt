//! The claims.
ghost use Rattle.std.specs.Prelude.{◌≡◌, ◌↔◌, IfNone, IfSome, IsTrue, Some, slice_get, vec_capacity};
ghost use Rattle.hm_model.specs.Locks.{IsIn};
ghost use Rattle.hm_model.specs.Claims.{Unclaims};

// The place of a claim.
fn place_of(claimed: &[u64], pid: u64) -> Option<usize>
    ensures found { IfSome result (λ place. slice_get claimed.now place ≡ Some pid) }
    ensures none { IfNone result (IsIn pid claimed.now → ⊥) }
{
    for (place, one) in claimed.iter().enumerate() {
        if *one == pid {
            return Some(place);
        }
    }
    None
}

/// Whether a procedure is claimed.
pub(crate) fn is_claimed(claimed: &[u64], pid: u64) -> bool
    ensures { IsTrue result ↔ IsIn pid claimed.now }
{
    for one in claimed {
        if *one == pid {
            return true;
        }
    }
    false
}

/// A claim ends.
pub(crate) fn unclaim(claimed: &mut Vec<u64>, pid: u64)
    ensures capacity { vec_capacity claimed.new ≡ vec_capacity claimed.old }
    ensures less { Unclaims pid claimed.old.items claimed.new.items }
{
    while let Some(place) = place_of(claimed, pid) {
        let _pid = claimed.remove(place);
    }
}
