//! Names of groups.
ghost use Rattle.std.proofs.Common.{rules};

use hm_hints::Hinted;
use hm_index::Sought;
use hm_names::Ns;
use std::cmp::Ordering;

/// The name of a group, as it is a key.
#[derive(Drop, PartialEq, Eq, PartialOrd, Ord)]
pub(crate) struct GroupName {
    pub(crate) ns: Ns,
}

impl Hinted for GroupName {
    ghost hint_of = { λ name. 0 };

    ghost rises = { Prim.search rules };

    fn own_hint(&self) -> u64 {
        0
    }
}

impl Sought<GroupName> for Ns {
    ghost use Rattle.hm_groups.specs.Groups.{named};

    ghost stands_for = { named };

    fn compared(&self, key: &GroupName) -> Ordering {
        key.ns.cmp(self)
    }

    fn hint(&self) -> u64 {
        0
    }
}
