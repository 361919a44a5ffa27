//! The commands of a script.
use hm_names::{List, Nonce, Ns, Pid, RegionName, RowKey, ServerName, TableName};

/// A command of a script.
#[derive(Drop)]
pub enum Command {
    /// How many threads work at once.
    Workers {
        count: u8,
    },
    Namespace {
        nonce: Nonce,
        ns: Ns,
    },
    DropNamespace {
        nonce: Nonce,
        ns: Ns,
    },
    /// The keys split the table into regions.
    Create {
        nonce: Nonce,
        table: TableName,
        keys: List<RowKey>,
    },
    Delete {
        nonce: Nonce,
        table: TableName,
    },
    Enable {
        nonce: Nonce,
        table: TableName,
    },
    Disable {
        nonce: Nonce,
        table: TableName,
    },
    Modify {
        nonce: Nonce,
        table: TableName,
        version: u64,
    },
    Split {
        nonce: Nonce,
        region: RegionName,
        key: RowKey,
    },
    Merge {
        nonce: Nonce,
        regions: List<RegionName>,
    },
    /// To a server, or to any.
    Move {
        nonce: Nonce,
        region: RegionName,
        to: Option<ServerName>,
    },
    Abort {
        pid: Pid,
    },
    /// A server comes up.
    Server {
        server: ServerName,
    },
    /// A server ends, and nobody is told.
    Die {
        server: ServerName,
    },
    /// A server is held to be dead.
    Expire {
        server: ServerName,
    },
    /// A server gets no regions any more, and gives away those that it has.
    Drain {
        server: ServerName,
    },
    /// A server may get regions again.
    Undrain {
        server: ServerName,
    },
    /// A server refuses its next regions.
    Refuse {
        server: ServerName,
        count: u32,
    },
    /// The storage refuses its next layouts.
    RefuseStorage {
        count: u32,
    },
    /// Works at so many tasks.
    Step {
        count: u64,
    },
    /// Works until nothing is left that can go on.
    Settle,
    /// Loses what is on its way.
    Lose,
    /// Sends again what was ever sent.
    Repeat,
    Balance,
    Procs,
    ProcsJson,
    Regions,
    Locks,
    Servers,
    /// The delay after which an open that failed is tried again begins with so many ticks.
    Backoff {
        ticks: u8,
    },
    /// The time goes on by so many ticks.
    Tick {
        ticks: u64,
    },
    Timers,
    /// A group has these servers.
    Group {
        name: Ns,
        servers: List<ServerName>,
    },
    /// A table may be on the servers of a group alone.
    TableGroup {
        table: TableName,
        name: Ns,
    },
    /// What the master and the servers that run don't agree on.
    Hbck,
    /// An image takes the place of the log's entries.
    Roll,
    /// The disk fails after so many changes, and so many bytes of the next.
    Cut {
        changes: u64,
        bytes: u64,
    },
    Reopen,
    /// The second master reads what is durable.
    Follow,
    /// The second master takes the first one's place.
    Takeover,
    /// The first master, which was deposed, is given an order.
    Old {
        order: Order,
    },
}

/// What a master that was deposed may still be told: the commands of the same names.
#[derive(Drop)]
pub enum Order {
    Namespace {
        nonce: Nonce,
        ns: Ns,
    },
    DropNamespace {
        nonce: Nonce,
        ns: Ns,
    },
    Create {
        nonce: Nonce,
        table: TableName,
        keys: List<RowKey>,
    },
    Delete {
        nonce: Nonce,
        table: TableName,
    },
    Enable {
        nonce: Nonce,
        table: TableName,
    },
    Disable {
        nonce: Nonce,
        table: TableName,
    },
    Modify {
        nonce: Nonce,
        table: TableName,
        version: u64,
    },
    Split {
        nonce: Nonce,
        region: RegionName,
        key: RowKey,
    },
    Merge {
        nonce: Nonce,
        regions: List<RegionName>,
    },
    Move {
        nonce: Nonce,
        region: RegionName,
        to: Option<ServerName>,
    },
    Abort {
        pid: Pid,
    },
    Expire {
        server: ServerName,
    },
    Step {
        count: u64,
    },
}
