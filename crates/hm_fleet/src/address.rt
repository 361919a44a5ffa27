//! Where servers run.
ghost use Rattle.std.specs.Prelude.{◌≡◌, IfOk};
ghost use Rattle.std.proofs.Common.{rules};
ghost use Rattle.hm_fleet.specs.Crew.{address_of};

use hm_hints::Hinted;
use hm_index::Sought;
use hm_names::{Copied, Host, ServerName};
use std::alloc::{AllocError, Global};
use std::cmp::Ordering;

/// A host and a port, where one server runs at most.
#[derive(Drop, PartialEq, Eq, PartialOrd, Ord)]
pub(crate) struct Address {
    host: Host,
    port: u16,
}

impl Address {
    // That of a server.
    pub(crate) fn of(alloc: Global, server: &ServerName) -> Result<Address, AllocError>
        ensures { IfOk result (λ address. address ≡ address_of server.now) }
    {
        Ok(Address {
            host: server.host.copy(alloc)?,
            port: server.port,
        })
    }
}

impl Hinted for Address {
    ghost hint_of = { λ address. 0 };

    ghost rises = { Prim.search rules };

    fn own_hint(&self) -> u64 {
        0
    }
}

impl Sought<Address> for ServerName {
    ghost use Rattle.hm_fleet.specs.Crew.{address_of};

    ghost stands_for = { address_of };

    fn compared(&self, key: &Address) -> Ordering {
        key.host.cmp(&self.host).then(key.port.cmp(&self.port))
    }

    fn hint(&self) -> u64 {
        0
    }
}
