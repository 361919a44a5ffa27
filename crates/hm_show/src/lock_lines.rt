//! The table `locks`.
ghost use Rattle.std.specs.Prelude.{◌≡◌, ◌+◌, ◌<◌, ◌^◌, ◌++◌, [], ◌∷◌, IfOk, OnOk, filter, map};
ghost use Rattle.hm_locks.specs.Needs.{HasFirst};
ghost use Rattle.hm_model.specs.Image.{counted};
ghost use Rattle.hm_show.specs.Lines.{AreLines, IsMore};
ghost use Rattle.hm_show.specs.Locks.{asked_by, by_resource, held_by, holds, lock_line, locks_of, locks_table, resource_cmp};
ghost use Rattle.hm_show.specs.Procs.{pids};

use crate::lines::Lines;
use crate::words::mode_name;
use hm_data::Record;
use hm_locks::asks;
use hm_model::{Ask, Resource};
use hm_names::Pid;
use hm_names::laws::names_order_by_parts;
use hm_procedures::Procedures;
use hm_records::Records;
use std::alloc::{AllocError, Global};
use std::cmp::Ordering;
use std::fmt;

// An ask that a procedure holds.
#[derive(Drop)]
pub(crate) struct Lock {
    pub(crate) ask: Ask,
    pub(crate) pid: u64,
}

// What is locked: its sort and its name.
#[derive(Drop)]
struct Locked<'a>(&'a Resource);

impl<'a> fmt::Display for Locked<'a> {
    ghost use Rattle.std.specs.Prelude.{Some};
    ghost use Rattle.hm_show.specs.Tables.{spaced};
    ghost use Rattle.hm_show.specs.Words.{resource_words};

    ghost output = { λ s. Some (spaced (resource_words s.0.now)) };

    fn fmt<W: fmt::Write>(&self, f: &mut fmt::Formatter<W>) -> fmt::Result {
        match self.0 {
            Resource::Ns(ns) => write!(f, "ns {ns}"),
            Resource::Table(table) => write!(f, "table {table}"),
            Resource::Region(region) => write!(f, "region {region}"),
            Resource::Server(server) => write!(f, "server {server}"),
        }
    }
}

// How what is locked orders: namespaces, tables, regions, servers, each by name.
fn compare(one: &Resource, other: &Resource) -> Ordering
    ensures { result ≡ resource_cmp one.now other.now }
{
    names_order_by_parts();
    match (one, other) {
        (Resource::Ns(one), Resource::Ns(other)) => one.cmp(other),
        (Resource::Ns(_), _) => Ordering::Less,
        (_, Resource::Ns(_)) => Ordering::Greater,
        (Resource::Table(one), Resource::Table(other)) => one.cmp(other),
        (Resource::Table(_), _) => Ordering::Less,
        (_, Resource::Table(_)) => Ordering::Greater,
        (Resource::Region(one), Resource::Region(other)) => one.cmp(other),
        (Resource::Region(_), _) => Ordering::Less,
        (_, Resource::Region(_)) => Ordering::Greater,
        (Resource::Server(one), Resource::Server(other)) => one.cmp(other),
    }
}

// Adds what a procedure asks for.
fn add_asks(locks: &mut Vec<Lock>, alloc: Global, one: &Record) -> Result<(), AllocError>
    requires { HasFirst one.now.args }
    ensures { OnOk result (locks.new.items ≡ locks.old.items ++ locks_of one.now) }
{
    let pid = one.pid.0;
    for ask in asks(alloc, &one.args)?.into_vec() {
        locks.push(Lock { ask, pid })?;
    }
    Ok(())
}

// Adds what the procedure of a number asks for.
fn add_asks_of(
    locks: &mut Vec<Lock>,
    alloc: Global,
    procedures: &Procedures,
    pid: Pid,
) -> Result<(), AllocError>
    ensures { OnOk result (locks.new.items ≡ locks.old.items ++ asked_by procedures.now.past (pid.0 ∷ [])) }
{
    let _last = procedures.last_pid();
    match procedures.find(pid) {
        Some(one) => add_asks(locks, alloc, one),
        None => Ok(()),
    }
}

// The procedures that hold what they ask for, in the order of their numbers.
fn holders(alloc: Global, records: &Records) -> Result<Vec<Pid>, AllocError>
    ensures { IfOk result (λ holders. map (λ pid. pid.0) holders.items ≡ filter (holds records.now.past) (pids records.now.past)) }
{
    let _procedures = records.procedures();
    names_order_by_parts();
    let mut holders = records.book().holders(alloc)?;
    holders.sort_unstable();
    Ok(holders)
}

// What is held, by the number of who holds it.
fn all_held(alloc: Global, records: &Records) -> Result<Vec<Lock>, AllocError>
    ensures { IfOk result (λ locks. locks.items ≡ held_by records.now.past (pids records.now.past)) }
{
    let mut locks = Vec::new(alloc);
    for pid in holders(alloc, records)? {
        add_asks_of(&mut locks, alloc, records.procedures(), pid)?;
    }
    Ok(locks)
}

// Puts locks in order by resource.
fn sort_locks(locks: &mut Vec<Lock>) -> Result<(), AllocError>
    ensures { OnOk result (locks.new.items ≡ by_resource locks.old.items) }
{
    locks.sort_by(|one, other| compare(&one.ask.resource, &other.ask.resource))
}

// Adds the line of a lock.
fn put_lock(lines: &mut Lines, lock: &Lock) -> Result<(), AllocError>
    requires { lines.old.count + 1 < 2 ^ 64 }
    ensures { OnOk result (IsMore (lock_line lock.now) lines.old lines.new) }
{
    let locked = Locked(&lock.ask.resource);
    let mode = mode_name(lock.ask.exclusive);
    let pid = lock.pid;
    write!(lines.text, "{locked} {mode} {pid}\n")?;
    lines.count += 1;
    Ok(())
}

// The lines of locks.
fn lock_lines(alloc: Global, locks: &[Lock]) -> Result<Lines, AllocError>
    ensures { IfOk result (AreLines (map lock_line locks.now)) }
{
    let mut lines = Lines::new(alloc);
    for lock in locks {
        put_lock(&mut lines, lock)?;
    }
    Ok(lines)
}

// The table `locks`: what is held, by resource and then by the number of who holds it. So many entries were recorded.
pub(crate) fn locks(alloc: Global, entries: u64, records: &Records) -> Result<Vec<u8>, AllocError>
    requires { entries ≡ counted records.now.past }
    ensures { IfOk result (λ table. table.items ≡ locks_table records.now.past) }
{
    let mut held = all_held(alloc, records)?;
    sort_locks(&mut held)?;
    lock_lines(alloc, &held)?.into_table(alloc, "locks", entries)
}
