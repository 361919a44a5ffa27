//! How the keys of the catalog order: laws, as functions that do nothing.
ghost use Rattle.std.specs.Prelude.{◌≡◌};
ghost use Rattle.std.specs.Cmp.{IsTotalOrder};
ghost use Rattle.hm_data.specs.declared.catalog.CatKey.{CatKey};
ghost use Rattle.hm_data.specs.Keys.{key_cmp};

use crate::catalog::CatKey;

/// Keys order namespaces, tables, regions, then by name, which is a total order.
pub fn keys_order_by_name()
    ensures order { (a b : CatKey) → ⟦<CatKey as Ord>⟧.cmp a b ≡ key_cmp a b }
    ensures total { IsTotalOrder key_cmp }
{}
