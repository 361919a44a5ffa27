//! Resources as they are looked up.
ghost use Rattle.std.specs.Prelude.{◌≡◌, IfOk};
ghost use Rattle.hm_locks.specs.declared.key.Key.{Key};
ghost use Rattle.hm_locks.specs.Keys.{key_of, lock_cmp};

use hm_data::CatKey;
use hm_data::laws::keys_order_by_name;
use hm_hints::Hinted;
use hm_model::Resource;
use hm_names::laws::names_order_by_parts;
use hm_names::{Copied, ServerName, front_hint};
use std::alloc::{AllocError, Global};

// A resource in an order: namespaces, tables and regions as the rows of the catalog, then servers, each by name.
#[derive(Drop, PartialEq, Eq, PartialOrd, Ord)]
pub(crate) enum Key {
    Row(CatKey),
    Server(ServerName),
}

impl Key {
    // The key of a resource.
    pub(crate) fn of(alloc: Global, resource: &Resource) -> Result<Key, AllocError>
        ensures { IfOk result (λ key. key ≡ key_of resource.now) }
    {
        Ok(match resource {
            Resource::Ns(ns) => Key::Row(CatKey::Ns(ns.copy(alloc)?)),
            Resource::Table(table) => Key::Row(CatKey::Table(table.copy(alloc)?)),
            Resource::Region(region) => Key::Row(CatKey::Region(region.copy(alloc)?)),
            Resource::Server(server) => Key::Server(server.copy(alloc)?),
        })
    }
}

impl Hinted for Key {
    ghost use Rattle.hm_locks.specs.HintLaws.{lock_hint, locks_rise};
    ghost use Rattle.std.specs.Prelude.{◌≡◌, ◌<◌};
    ghost use Rattle.std.specs.declared.cmp.Ordering.TheVariants.{Less};
    ghost use Rattle.hm_data.specs.declared.catalog.CatKey.{CatKey};
    ghost use Rattle.hm_data.specs.declared.catalog.CatKey.TheVariants.{Ns, Table, Region};
    ghost use Rattle.hm_locks.specs.declared.key.Key.TheVariants.{Row, Server};

    ghost hint_of = { lock_hint };

    ghost rises = { let rows : (a b : CatKey) → lock_hint (Row a) < lock_hint (Row b) → ⟦<Key as Ord>⟧.cmp (Row a) (Row b) ≡ Less = elim [ Ns x ↦ elim [ Ns y ↦ locks_rise (Row (Ns x)) (Row (Ns y)) | Table y ↦ locks_rise (Row (Ns x)) (Row (Table y)) | Region y ↦ locks_rise (Row (Ns x)) (Row (Region y)) ] | Table x ↦ elim [ Ns y ↦ locks_rise (Row (Table x)) (Row (Ns y)) | Table y ↦ locks_rise (Row (Table x)) (Row (Table y)) | Region y ↦ locks_rise (Row (Table x)) (Row (Region y)) ] | Region x ↦ elim [ Ns y ↦ locks_rise (Row (Region x)) (Row (Ns y)) | Table y ↦ locks_rise (Row (Region x)) (Row (Table y)) | Region y ↦ locks_rise (Row (Region x)) (Row (Region y)) ] ] in elim [ Row a ↦ elim [ Row b ↦ rows a b | Server b ↦ locks_rise (Row a) (Server b) ] | Server a ↦ elim [ Row b ↦ locks_rise (Server a) (Row b) | Server b ↦ locks_rise (Server a) (Server b) ] ] };

    fn own_hint(&self) -> u64 {
        match self {
            Key::Row(row) => row.own_hint(),
            Key::Server(server) => front_hint(3, server.host.as_bytes()),
        }
    }
}

// How keys order: a law that does nothing.
pub(crate) fn locks_order_by_name()
    ensures { (a b : Key) → ⟦<Key as Ord>⟧.cmp a b ≡ lock_cmp a b }
{
    keys_order_by_name();
    names_order_by_parts();
}
