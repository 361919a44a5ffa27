//! Numbers of rows in an order of their own.
ghost use Rattle.std.specs.Prelude.{◌≡◌, ◌+◌, ◌≤◌, ◌<◌, IfSome, vec_len, vec_capacity};
ghost use Rattle.hm_places.specs.Chosen.{with_spot};

use hm_index::put_at;

// Puts a number in at a place, if there is one, in room that is there.
pub(crate) fn add_at(numbers: &mut Vec<u32>, spot: Option<usize>, number: u32)
    requires within { IfSome spot (λ at. at ≤ vec_len numbers.old) }
    requires room { vec_len numbers.old < vec_capacity numbers.old }
    ensures items { numbers.new.items ≡ with_spot numbers.old.items spot number }
    ensures len { vec_len numbers.new ≤ vec_len numbers.old + 1 }
    ensures capacity { vec_capacity numbers.new ≡ vec_capacity numbers.old }
{
    if let Some(at) = spot {
        put_at(numbers, at, number);
    }
}
