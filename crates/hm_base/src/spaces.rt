//! The namespaces that are there from the start of other journals.
ghost use Rattle.std.specs.Prelude.{◌≡◌, ◌≢◌, ◌↔◌, IfOk, IsTrue, None, Ok};
ghost use Rattle.hm_data.specs.declared.catalog.CatKey.TheVariants as key_is;
ghost use Rattle.hm_names.specs.Names.{read_ns};
ghost use Rattle.hm_model.specs.Catalog.{row_at};
ghost use Rattle.hm_base.specs.Whole.{HasSpaces};

use hm_catalog::{Catalog, Name};
use hm_names::Ns;
use std::alloc::{AllocError, Global};

// Whether a namespace is there.
fn has_ns(alloc: Global, catalog: &Catalog, name: &[u8]) -> Result<bool, AllocError>
    requires { read_ns name.now ≡ Ok name.now }
    ensures { IfOk result (λ there. IsTrue there ↔ (row_at catalog.now.rows (key_is.Ns name.now) ≢ None)) }
{
    let Ok(ns) = Ns::of(alloc, name) else {
        return Err(AllocError);
    };
    Ok(catalog.get(&Name::Ns(&ns)).is_some())
}

// Whether the two namespaces are there.
pub(crate) fn has_spaces(alloc: Global, catalog: &Catalog) -> Result<bool, AllocError>
    ensures { IfOk result (λ there. IsTrue there ↔ HasSpaces (row_at catalog.now.rows)) }
{
    let default = has_ns(alloc, catalog, b"default")?;
    let hbase = has_ns(alloc, catalog, b"hbase")?;
    Ok(default && hbase)
}
