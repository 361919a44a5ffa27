ghost use Rattle.std.specs.Prelude.{◌≡◌, ◌↔◌, IsTrue};
ghost use Rattle.std.proofs.Common.{rules};
ghost use Rattle.std.specs.Cmp.Lexicographic.{pointwise};
ghost use Rattle.std.specs.Cmp.Rules.{comparing};

use crate::copied::Copied;
use crate::same::Same;
use std::alloc::{AllocError, Global};
use std::marker::Model;

/// A list, which contracts see as a plain list of its items.
#[derive(Debug, Drop)]
pub struct List<T> {
    items: Vec<T>,
}

impl<T> Model for List<T> {
    ghost use Rattle.std.specs.Prelude.{List as PlainList};

    ghost Value = { PlainList T };

    ghost view = { λ s. s.items.items };
}

impl<T> List<T> {
    /// The list of these items.
    pub fn of(items: Vec<T>) -> List<T>
        ensures { result ≡ items.items }
    {
        List { items }
    }

    /// The items.
    pub fn as_slice(&self) -> &[T]
        ensures { result.now ≡ self.now }
    {
        self.items.as_slice()
    }

    /// The items, in the vector that they were given in.
    pub fn into_vec(self) -> Vec<T>
        ensures { result.items ≡ self }
    {
        self.items
    }
}

impl<T: Copied + Drop> Copied for List<T> {
    fn copy(&self, alloc: Global) -> Result<List<T>, AllocError> {
        let mut items = Vec::new(alloc);
        for x in &self.items {
            items.push(x.copy(alloc)?)?;
        }
        Ok(List { items })
    }
}

impl<T: PartialEq> PartialEq for List<T> {
    ghost eq = { pointwise T.eq };

    ghost laws = { Prim.search (comparing, rules) };

    fn eq(&self, other: &List<T>) -> bool {
        self.items.as_slice() == other.items.as_slice()
    }
}

impl<T: Eq> Eq for List<T> {
    ghost laws = { Prim.search (comparing, rules) };
}

fn same_items<T: Same>(a: &[T], b: &[T]) -> bool
    ensures { IsTrue result ↔ (a.now ≡ b.now) }
{
    if a.len() != b.len() {
        return false;
    }
    for (i, x) in a.iter().enumerate() {
        if !x.same(&b[i]) {
            return false;
        }
    }
    true
}

impl<T: Same> Same for List<T> {
    fn same(&self, other: &List<T>) -> bool {
        same_items(self.items.as_slice(), other.items.as_slice())
    }
}
