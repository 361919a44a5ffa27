//! Vectors in which there is room: what is put there takes no memory.
ghost use Rattle.std.specs.Prelude.{◌≡◌, ◌+◌, ◌≤◌, ◌<◌, ◌++◌, length, vec_len, vec_capacity};
ghost use Rattle.std.specs.List.{insert as inserted};

use crate::block::Mark;

/// Adds an item at a place, in room that is there.
pub fn put_at<T: Drop>(items: &mut Vec<T>, place: usize, item: T)
    requires bound { place ≤ vec_len items.old }
    requires room { vec_len items.old < vec_capacity items.old }
    ensures items { items.new.items ≡ inserted items.old.items place item }
    ensures len { vec_len items.new ≡ vec_len items.old + 1 }
    ensures capacity { vec_capacity items.new ≡ vec_capacity items.old }
{
    let _ = items.insert(place, item);
}

// Adds items at the end.
pub(crate) fn put_all(items: &mut Vec<Mark>, more: &[Mark])
    requires { vec_len items.old + length more.now ≤ vec_capacity items.old }
    ensures items { items.new.items ≡ items.old.items ++ more.now }
    ensures len { vec_len items.new ≡ vec_len items.old + length more.now }
    ensures capacity { vec_capacity items.new ≡ vec_capacity items.old }
{
    for item in more {
        items.push_reserved(*item);
    }
}
