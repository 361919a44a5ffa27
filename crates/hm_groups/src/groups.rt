//! Groups of servers, the tables in them, and the servers that are drained.
ghost use Rattle.std.specs.Prelude.{◌≡◌, ◌||◌, ◌&&◌, ℕ, List, IfErr, IfOk, IsTrue, OnErr, OnOk, Some, not, true, if◌then◌else◌};
ghost use Rattle.std.specs.List.{list_any};
ghost use Rattle.std.specs.Str.{bytes_eq};
ghost use Rattle.hm_names.specs.Server.{Server};
ghost use Rattle.hm_names.specs.declared.table.TableName.{TableName as Table};
ghost use Rattle.hm_model.specs.Fleet.{same_server};
ghost use Rattle.hm_model.specs.Keys.{same_table};
ghost use Rattle.hm_groups.specs.Groups.{CannotJoin, group_of, has_address, in_group, is_drained, is_free, is_set, may as allowed, no_groups};

use crate::members::Members;
use crate::name::GroupName;
use crate::why::GroupWhy;
use hm_index::Index;
use hm_names::{List, Ns, ServerName, TableName};
use std::alloc::{AllocError, Global};
use std::marker::Model;

/// Groups of servers by host and port, the group of each table that has one, and the servers that are drained. Nothing here
/// knows of a journal: a table's group outlives the table, and a drained server that goes down stays drained. A server of the
/// same host and port with another start is in the same groups, and is drained only where it was drained itself.
#[derive(Drop)]
pub struct Groups {
    groups: Index<GroupName, Members>,
    tables: Index<TableName, Ns>,
    // Servers of which was told whether they are drained.
    drained: Index<ServerName, bool>,
}

impl Model for Groups {
    ghost use Rattle.hm_groups.specs.Groups.{GroupsView};

    ghost Value = { GroupsView };

    ghost view = { λ s. record { groups = s.groups.pairs; tables = s.tables.pairs; drained = s.drained.pairs } };
}

impl Groups {
    /// No group, no table in one, no server that is drained.
    pub fn new(alloc: Global) -> Result<Groups, AllocError>
        ensures { IfOk result (λ groups. groups ≡ no_groups) }
    {
        Ok(Groups {
            groups: Index::new(alloc)?,
            tables: Index::new(alloc)?,
            drained: Index::new(alloc)?,
        })
    }

    /// Sets a group, anew or for the first time: it has these servers, by host and port, and no others.
    pub fn set(
        &mut self,
        alloc: Global,
        name: Ns,
        servers: List<ServerName>,
    ) -> Result<(), AllocError>
        ensures set { OnOk result ((other : List ℕ) → is_set self.new other ≡ (bytes_eq name other || is_set self.old other)) }
        ensures members { OnOk result ((other : List ℕ) (server : Server) → in_group self.new other server ≡ (if bytes_eq name other then has_address servers server else in_group self.old other server)) }
        ensures tables { self.new.tables ≡ self.old.tables }
        ensures drained { self.new.drained ≡ self.old.drained }
        ensures kept { OnErr result (self.new ≡ self.old) }
    {
        self.groups.reserve(alloc, 1)?;
        let members = Members::of(servers);
        self.groups.set(GroupName { ns: name }, members);
        Ok(())
    }

    /// Puts a table into a group that was set, and out of the one that it was in. The table needn't be there.
    pub fn table(&mut self, alloc: Global, table: TableName, name: Ns) -> Result<(), GroupWhy>
        ensures there { OnOk result (is_set self.old name ≡ true) }
        ensures put { OnOk result ((other : Table) → group_of self.new other ≡ (if same_table table other then Some name else group_of self.old other)) }
        ensures refused { IfErr result (CannotJoin self.old name) }
        ensures groups { self.new.groups ≡ self.old.groups }
        ensures drained { self.new.drained ≡ self.old.drained }
        ensures kept { OnErr result (self.new ≡ self.old) }
    {
        if self.groups.get(&name).is_none() {
            return Err(GroupWhy::NoGroup);
        }
        if self.tables.reserve(alloc, 1).is_err() {
            return Err(GroupWhy::Memory);
        }
        self.tables.set(table, name);
        Ok(())
    }

    /// Drains a server: from now on no region is placed there.
    pub fn drain(&mut self, alloc: Global, server: ServerName) -> Result<(), AllocError>
        ensures drained { OnOk result ((other : Server) → is_drained self.new other ≡ (same_server server other || is_drained self.old other)) }
        ensures groups { self.new.groups ≡ self.old.groups }
        ensures tables { self.new.tables ≡ self.old.tables }
        ensures kept { OnErr result (self.new ≡ self.old) }
    {
        self.drained.reserve(alloc, 1)?;
        self.drained.set(server, true);
        Ok(())
    }

    /// A server isn't drained any more.
    pub fn undrain(&mut self, server: &ServerName)
        ensures drained { (other : Server) → is_drained self.new other ≡ (not (same_server server.now other) && is_drained self.old other) }
        ensures groups { self.new.groups ≡ self.old.groups }
        ensures tables { self.new.tables ≡ self.old.tables }
    {
        if self.drained.get(server).is_some() {
            self.drained.change(server, false);
        }
    }

    // Whether a server is drained.
    fn drains(&self, server: &ServerName) -> bool
        ensures { result ≡ is_drained self.now server.now }
    {
        match self.drained.get(server) {
            Some(drained) => *drained,
            None => false,
        }
    }

    // Whether any server is drained.
    fn has_drained(&self) -> bool
        ensures { result ≡ list_any (λ row. row.1) self.now.drained }
    {
        for (_, drained) in self.drained.view().iter() {
            if *drained {
                return true;
            }
        }
        false
    }

    // Whether a server is in a group.
    fn has(&self, name: &Ns, server: &ServerName) -> bool
        ensures { result ≡ in_group self.now name.now server.now }
    {
        match self.groups.get(name) {
            Some(members) => members.has(server),
            None => false,
        }
    }

    /// Whether the regions of a table may be placed at a server: it isn't drained, and is in the table's group. A table without a
    /// group has all. It takes as long as look-ups in sorted lists.
    pub fn may(&self, table: &TableName, server: &ServerName) -> bool
        ensures { result ≡ allowed self.now table.now server.now }
    {
        if self.drains(server) {
            return false;
        }
        match self.tables.get(table) {
            Some(name) => self.has(name, server),
            None => true,
        }
    }

    /// Whether no table is in a group and no server is drained: then the regions of any table may be placed at any server. It goes
    /// over the servers of which was told whether they are drained.
    #[tactic(auto, using(crate::proofs::Freed::free_may))]
    pub fn is_free(&self) -> bool
        ensures exact { result ≡ is_free self.now }
        ensures free { IsTrue result → (table : Table) (server : Server) → allowed self.now table server ≡ true }
    {
        self.tables.view().is_empty() && !self.has_drained()
    }
}
