//! The lists of a scheduler.
ghost use Rattle.std.specs.Prelude.{◌≡◌, ◌<◌, ◌^◌};
ghost use Rattle.hm_sched.specs.Queues.{home_of, is_suspended, number, ready_list};

/// A list: the ready procedures of servers' crashes, the other ready ones, those that wait for a live server, those that
/// wait for what a procedure locks, and those whose call went to the server of a number.
#[derive(Clone, Copy)]
pub enum Queue {
    Servers,
    Tables,
    Held,
    Waits(u64),
    Suspended(u32),
}

// The number of a list.
pub(crate) fn number(queue: Queue) -> u32
    requires { number queue < 2 ^ 32 }
    ensures { result ≡ number queue }
{
    match queue {
        Queue::Servers => 0,
        Queue::Tables => 1,
        Queue::Held => 2,
        Queue::Waits(pid) => (pid + pid + 3) as u32,
        Queue::Suspended(server) => server + server + 4,
    }
}

// The list of a number.
pub(crate) fn queue_of(list: u32) -> Queue
    ensures { number result ≡ list }
{
    match list {
        0 => Queue::Servers,
        1 => Queue::Tables,
        2 => Queue::Held,
        _ => {
            if list % 2 == 1 {
                Queue::Waits(u64::from((list - 3) / 2))
            } else {
                Queue::Suspended((list - 4) / 2)
            }
        }
    }
}

// The ready list of a servers' crash's procedures, or of others.
pub(crate) fn ready_list(servers: bool) -> Queue
    ensures { result ≡ ready_list servers }
{
    if servers {
        Queue::Servers
    } else {
        Queue::Tables
    }
}

// The ready list of a procedure of which this was said; the tables' where nothing was.
pub(crate) fn home(servers: Option<bool>) -> Queue
    ensures { result ≡ home_of servers }
{
    ready_list(servers.unwrap_or(false))
}

// Whether it is the list of a server's calls.
pub(crate) fn is_suspended(queue: Queue) -> bool
    ensures { result ≡ is_suspended queue }
{
    matches!(queue, Queue::Suspended(_))
}
