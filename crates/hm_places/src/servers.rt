//! Which servers there are.
ghost use Rattle.std.specs.Prelude.{◌≡◌, ◌≢◌, ℕ, ◌+◌, ◌≤◌, ◌<◌, [], IfOk, IfErr, OnOk, OnErr, IfSome, Some, true, false, slice_get};
ghost use Rattle.std.specs.Option.{option_copied};
ghost use Rattle.hm_names.specs.Order.{server_cmp};
ghost use Rattle.hm_names.specs.Server.{Server};
ghost use Rattle.hm_index.specs.Index.{placed};
ghost use Rattle.hm_model.specs.Loads.{load_in};
ghost use Rattle.hm_model.specs.Standings.{MayComeUp, greatest_start, is_live_in, live_servers};
ghost use Rattle.hm_model.specs.Choice.{lowest, or_else, without};
ghost use Rattle.hm_places.specs.Servers.{as_told, fresh, is_fenced_in, came_up_in, has_live_in, has_newer_in, has_older_in, has_other_live_in, CannotComeUp, CameUp, CannotGoDown, WentDown, put_down, first_there, fenced};

use crate::picking::lowest_of;
use crate::places::Places;
use crate::refused::{DownRefused, UpRefused};
use crate::up::{
    Rows, greatest_from, let_go, live_there, newer_there, older_there, other_live, spot_for,
};
use hm_index::{Index, View, put_at};
use hm_model::Standing;
use hm_names::{Copied, ServerName};
use std::alloc::{AllocError, Global};
use std::marker::Model;

/// The servers that ever came up. Contracts see them in name order, each with how it stands, and for how many more there
/// is room.
#[derive(Drop)]
pub struct Servers {
    rows: Rows,
    // The numbers of the live ones, in name order.
    live: Vec<u32>,
}

impl Model for Servers {
    ghost use Rattle.std.specs.Prelude.{◌-◌, ◌+◌, min, vec_len, vec_capacity};
    ghost use Rattle.hm_places.specs.Servers.{ServersView, AreServers};

    ghost Value = { ServersView };

    ghost view = { λ s. record { servers = s.rows.pairs; spare = min s.rows.spare (vec_capacity s.live - vec_len s.live); room = s.rows.room + vec_capacity s.live } };

    ghost invariant = { λ s. AreServers s.rows.came s.rows.pairs s.live.items };
}

impl Servers {
    /// No server came up.
    pub fn new(alloc: Global) -> Result<Servers, AllocError>
        ensures { IfOk result (λ servers. servers.servers ≡ []) }
    {
        Ok(Servers {
            rows: Index::new(alloc)?,
            live: Vec::new(alloc),
        })
    }

    /// Makes room for so many servers more.
    pub fn reserve(&mut self, alloc: Global, servers: u64) -> Result<(), AllocError>
        ensures servers { self.new.servers ≡ self.old.servers }
        ensures room { OnOk result (servers ≤ self.new.spare) }
        ensures kept { self.old.spare ≤ self.new.spare }
    {
        self.rows.reserve(alloc, servers as usize)?;
        self.live.reserve(servers as usize)
    }

    /// Makes a server live that comes up, in the room that was made for it.
    pub fn add(&mut self, server: ServerName)
        requires room { 1 ≤ self.old.spare }
        requires may { MayComeUp self.old.servers server }
        requires alone { has_older_in self.old.servers server ≡ false }
        ensures servers { self.new.servers ≡ placed server_cmp self.old.servers server fresh }
        ensures spare { self.old.spare ≤ self.new.spare + 1 }
        ensures room { self.new.room ≡ self.old.room }
    {
        self.tell(server, false);
    }

    /// Takes in a server as a part of a base tells it, live unless it is fenced, in the room that was made for it.
    pub fn tell(&mut self, server: ServerName, fenced: bool)
        requires room { 1 ≤ self.old.spare }
        requires newest { has_newer_in self.old.servers server ≡ false }
        requires alone { has_older_in self.old.servers server ≡ false }
        ensures servers { self.new.servers ≡ placed server_cmp self.old.servers server (as_told fenced) }
        ensures spare { self.old.spare ≤ self.new.spare + 1 }
        ensures room { self.new.room ≡ self.old.room }
    {
        let at = spot_for(&self.rows, &self.live, &server);
        let live = !fenced;
        let number = self.rows.put(server, Standing { live, fenced });
        if live {
            put_at(&mut self.live, at, number);
        }
    }

    /// Makes a server live that comes up, and answers the older one of its host and port that it put down.
    pub fn up(&mut self, alloc: Global, server: ServerName) -> Result<Option<ServerName>, UpRefused>
        ensures up { IfOk result (λ older. CameUp self.old.servers server older self.new.servers) }
        ensures refused { IfErr result (CannotComeUp self.old.servers server) }
        ensures kept { OnErr result (self.new.servers ≡ self.old.servers) }
        ensures spare { OnOk result (self.old.spare ≤ self.new.spare + 1) }
    {
        self.may_come_up(&server)?;
        let Ok(older) = self.make_ready(alloc, &server) else {
            return Err(UpRefused::Memory);
        };
        self.put_down(older.as_ref());
        self.add(server);
        Ok(older)
    }

    /// Whether a server may come up, and else why not. It takes no memory.
    pub fn may_come_up(&self, server: &ServerName) -> Result<(), UpRefused>
        ensures may { OnOk result (MayComeUp self.now.servers server.now) }
        ensures refused { IfErr result (CannotComeUp self.now.servers server.now) }
        ensures judged { IfErr result (λ why. why ≢ UpRefused.Memory) }
    {
        if self.live(server) {
            return Err(UpRefused::Known);
        }
        let greatest = greatest_from(&self.rows, server);
        if server.start <= greatest {
            return Err(UpRefused::OldStart(greatest));
        }
        Ok(())
    }

    // Makes room for a server that comes up, and a copy of the older one of its address that is live, if there is one.
    fn make_ready(
        &mut self,
        alloc: Global,
        server: &ServerName,
    ) -> Result<Option<ServerName>, AllocError>
        ensures servers { self.new.servers ≡ self.old.servers }
        ensures room { OnOk result (1 ≤ self.new.spare) }
        ensures spare { self.old.spare ≤ self.new.spare }
        ensures older { IfOk result (λ older. older ≡ first_there (live_servers self.old.servers) server.now) }
        ensures live { IfOk result (λ older. IfSome older (λ name. is_live_in self.new.servers name ≡ true)) }
    {
        self.reserve(alloc, 1)?;
        self.older_of(alloc, server)
    }

    /// A copy of the live server at the host and port of a server, if there is one.
    pub fn older_of(
        &self,
        alloc: Global,
        server: &ServerName,
    ) -> Result<Option<ServerName>, AllocError>
        ensures older { IfOk result (λ older. older ≡ first_there (live_servers self.now.servers) server.now) }
        ensures live { IfOk result (λ older. IfSome older (λ name. is_live_in self.now.servers name ≡ true)) }
    {
        let Some(older) = live_there(&self.rows, &self.live, server) else {
            return Ok(None);
        };
        Ok(Some(older.copy(alloc)?))
    }

    // Puts a live server down, if there is one.
    fn put_down(&mut self, server: Option<&ServerName>)
        requires { IfSome (option_copied server) (λ name. is_live_in self.old.servers name ≡ true) }
        ensures servers { self.new.servers ≡ put_down self.old.servers (option_copied server.entry) }
        ensures may { (other : Server) → MayComeUp self.old.servers other → MayComeUp self.new.servers other }
        ensures alone { (other : Server) → option_copied server.entry ≡ first_there (live_servers self.old.servers) other → has_older_in self.new.servers other ≡ false }
        ensures spare { self.old.spare ≤ self.new.spare }
        ensures room { self.new.room ≡ self.old.room }
    {
        let Some(server) = server else {
            let _none_live = &self.live;
            return;
        };
        let fenced = self.fenced(server);
        let_go(&self.rows, &mut self.live, server);
        self.rows.change(
            server,
            Standing {
                live: false,
                fenced,
            },
        );
    }

    /// Whether a server may go down, and else why not.
    pub fn may_go_down(&self, server: &ServerName) -> Result<(), DownRefused>
        ensures may { OnOk result (is_live_in self.now.servers server.now ≡ true) }
        ensures refused { IfErr result (CannotGoDown self.now.servers server.now) }
    {
        match self.rows.get(server) {
            None => Err(DownRefused::Unknown),
            Some(standing) if !standing.live => Err(DownRefused::AlreadyDown),
            Some(_) => Ok(()),
        }
    }

    /// Puts a live server down.
    pub fn down(&mut self, server: &ServerName) -> Result<(), DownRefused>
        ensures down { OnOk result (WentDown self.old.servers server.now self.new.servers) }
        ensures refused { IfErr result (CannotGoDown self.old.servers server.now) }
        ensures kept { OnErr result (self.new.servers ≡ self.old.servers) }
        ensures spare { self.old.spare ≤ self.new.spare }
        ensures room { self.new.room ≡ self.old.room }
    {
        self.may_go_down(server)?;
        self.put_down(Some(server));
        Ok(())
    }

    /// A server serves nothing any more.
    pub fn fence(&mut self, server: &ServerName)
        requires { came_up_in self.old.servers server.now ≡ true }
        ensures servers { self.new.servers ≡ fenced self.old.servers server.now }
        ensures spare { self.new.spare ≡ self.old.spare }
        ensures room { self.new.room ≡ self.old.room }
    {
        let live = self.live(server);
        self.rows.change(server, Standing { live, fenced: true });
    }

    /// Whether a server is live.
    pub fn live(&self, server: &ServerName) -> bool
        ensures { result ≡ is_live_in self.now.servers server.now }
    {
        match self.rows.get(server) {
            Some(standing) => standing.live,
            None => false,
        }
    }

    /// Whether a server is fenced.
    pub fn fenced(&self, server: &ServerName) -> bool
        ensures { result ≡ is_fenced_in self.now.servers server.now }
    {
        match self.rows.get(server) {
            Some(standing) => standing.fenced,
            None => false,
        }
    }

    /// Whether a server of its host and port came up with its start code or a greater one.
    pub fn has_newer(&self, server: &ServerName) -> bool
        ensures { result ≡ has_newer_in self.now.servers server.now }
    {
        let _in_order = &self.live;
        newer_there(&self.rows, server)
    }

    /// Whether an older server of its host and port is live.
    pub fn has_older_live(&self, server: &ServerName) -> bool
        ensures { result ≡ has_older_in self.now.servers server.now }
    {
        older_there(&self.rows, &self.live, server)
    }

    /// Whether another server is live.
    pub fn has_other_live(&self, server: &ServerName) -> bool
        ensures { result ≡ has_other_live_in self.now.servers server.now }
    {
        other_live(&self.rows, &self.live, server)
    }

    /// Whether any server is live.
    pub fn any_live(&self) -> bool
        ensures { result ≡ has_live_in self.now.servers }
    {
        !self.live.is_empty()
    }

    /// All servers that ever came up, in name order, and how they stand.
    pub fn all(&self) -> View<'_, ServerName, Standing>
        ensures { result ≡ self.now.servers }
    {
        self.rows.view()
    }

    /// The live server with the lowest load, the first in name order among equals; one that is to be avoided only where
    /// no other is live.
    pub fn pick(&self, places: &Places, avoid: Option<&ServerName>) -> Option<&ServerName>
        ensures { option_copied result ≡ lowest (load_in places.now.places) (or_else (without (option_copied avoid.entry) (live_servers self.now.servers)) (live_servers self.now.servers)) }
    {
        match lowest_of(&self.rows, &self.live, places, avoid) {
            Some(server) => Some(server),
            None => lowest_of(&self.rows, &self.live, places, None),
        }
    }
}
