//! Lists in order.
ghost use Rattle.std.specs.Prelude.{◌≡◌, ◌↔◌};
ghost use Rattle.std.specs.List.Sorted.{IsStrictlySortedBy};
ghost use Rattle.std.specs.declared.cmp.Ordering.TheVariants.{Equal};
ghost use Rattle.hm_model.specs.Locks.{IsIn};

// Sorts items, and keeps each once.
pub(crate) fn sort_once<T: Ord + Drop>(items: &mut Vec<T>)
    requires { (a b : T) → T.cmp a b ≡ Equal → a ≡ b }
    ensures sorted { IsStrictlySortedBy T.cmp items.new.items }
    ensures same { (item : T) → IsIn item items.new.items ↔ IsIn item items.old.items }
{
    items.sort_unstable();
    items.dedup();
}
