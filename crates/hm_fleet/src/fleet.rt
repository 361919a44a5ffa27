//! What is outside a master, and what travels.
ghost use Rattle.std.specs.Prelude.{◌≡◌, ◌+◌, ◌≤◌, ◌++◌, ◌∷◌, List, [], IfOk, OnErr, OnOk, drop, is_some, length, slice_get};
ghost use Rattle.std.specs.Option.{option_copied};
ghost use Rattle.hm_data.specs.declared.call.Call.{Call as CallValue};
ghost use Rattle.hm_data.specs.declared.call.ReportMsg.{ReportMsg as ReportValue};
ghost use Rattle.hm_server.specs.Actors.{storage_of};
ghost use Rattle.hm_world_model.specs.Outside.{armed, delivered, died, nobody, report_to, runs, started, with_report, with_sent};
ghost use Rattle.hm_fleet.specs.Fleet.{Delivers, IsSame, holds_if, outside_by, outside_of};

use crate::crew::Crew;
use crate::mail::Mail;
use crate::newcomer::Newcomer;
use hm_data::{Call, Peer, ReportMsg};
use hm_names::{RegionName, ServerName};
use hm_server::StorageActor;
use std::alloc::{AllocError, Global};
use std::marker::Model;

/// What is outside a master: the servers that run, the storage, the calls that were ever sent and the reports that were ever
/// made; and what of these travels. Contracts see all of it, and for how many servers more there is room.
#[derive(Drop)]
pub struct Fleet {
    crew: Crew,
    storage: StorageActor,
    calls: Mail<Call>,
    reports: Mail<ReportMsg>,
}

impl Model for Fleet {
    ghost use Rattle.hm_fleet.specs.Fleet.{FleetView};

    ghost Value = { FleetView };

    ghost view = { λ s. record { crew = s.crew; storage = s.storage; sent = s.calls.all; reports = s.reports.all; wire = s.calls.travels; waiting = s.reports.travels } };
}

impl Fleet {
    /// Nobody runs, and nothing was sent.
    pub fn of(alloc: Global, storage: StorageActor) -> Result<Fleet, AllocError>
        ensures outside { IfOk result (λ fleet. outside_of fleet ≡ nobody (storage_of storage)) }
        ensures wire { IfOk result (λ fleet. fleet.wire ≡ []) }
        ensures waiting { IfOk result (λ fleet. fleet.waiting ≡ []) }
    {
        Ok(Fleet {
            crew: Crew::new(alloc)?,
            storage,
            calls: Mail::new(alloc),
            reports: Mail::new(alloc),
        })
    }

    /// Whether who is called runs. The storage always does.
    pub fn runs(&self, peer: &Peer) -> bool
        ensures { result ≡ runs (outside_of self.now) peer.now }
    {
        match peer {
            Peer::Server(server) => self.runs_server(server),
            Peer::Storage => true,
        }
    }

    /// Whether a server runs.
    pub fn runs_server(&self, server: &ServerName) -> bool
        ensures { result ≡ is_some ((outside_of self.now).actors server.now) }
    {
        self.crew.get(server).is_some()
    }

    /// Whether a server runs and holds a region.
    pub fn holds(&self, server: &ServerName, region: &RegionName) -> bool
        ensures { result ≡ holds_if ((outside_of self.now).actors server.now) region.now }
    {
        match self.crew.get(server) {
            Some(actor) => actor.holds(region),
            None => false,
        }
    }

    /// Makes a server that is to start, and room for it: that it starts then takes no memory.
    pub fn ready(&mut self, alloc: Global, server: &ServerName) -> Result<Newcomer, AllocError>
        ensures newcomer { IfOk result (λ newcomer. newcomer ≡ server.now) }
        ensures room { OnOk result (1 ≤ self.new.crew.spare) }
        ensures same { IsSame self.old self.new }
        ensures kept { self.old.crew.spare ≤ self.new.crew.spare }
    {
        self.crew.reserve(alloc)?;
        let newcomer = Newcomer::new(alloc, server)?;
        Ok(newcomer)
    }

    /// A server starts, in place of any other of its host and port.
    pub fn start(&mut self, newcomer: Newcomer)
        requires { 1 ≤ self.old.crew.spare }
        ensures outside { outside_of self.new ≡ started (outside_of self.old) newcomer }
        ensures wire { self.new.wire ≡ self.old.wire }
        ensures waiting { self.new.waiting ≡ self.old.waiting }
    {
        self.crew.start(newcomer);
    }

    /// A server runs no longer.
    pub fn die(&mut self, server: &ServerName)
        ensures outside { outside_of self.new ≡ died (outside_of self.old) server.now }
        ensures wire { self.new.wire ≡ self.old.wire }
        ensures waiting { self.new.waiting ≡ self.old.waiting }
        ensures spare { self.new.crew.spare ≡ self.old.crew.spare }
    {
        self.crew.end(server);
    }

    /// Sets how many of the next opens, or layouts, who is called refuses.
    pub fn arm(&mut self, peer: &Peer, count: u32)
        ensures outside { outside_of self.new ≡ armed (outside_of self.old) peer.now count }
        ensures wire { self.new.wire ≡ self.old.wire }
        ensures waiting { self.new.waiting ≡ self.old.waiting }
        ensures spare { self.new.crew.spare ≡ self.old.crew.spare }
    {
        match peer {
            Peer::Server(server) => self.crew.refuse(server, count),
            Peer::Storage => self.storage.refuse(count),
        }
    }

    /// A call is sent.
    pub fn send(&mut self, call: Call) -> Result<(), AllocError>
        ensures outside { OnOk result (outside_of self.new ≡ with_sent (outside_of self.old) call) }
        ensures wire { OnOk result (self.new.wire ≡ self.old.wire ++ call ∷ []) }
        ensures waiting { OnOk result (self.new.waiting ≡ self.old.waiting) }
        ensures same { OnErr result (IsSame self.old self.new) }
        ensures spare { self.new.crew.spare ≡ self.old.crew.spare }
    {
        self.calls.reserve()?;
        self.calls.send(call);
        Ok(())
    }

    /// Delivers the oldest call on the wire. What it is answered, if anything, is a report that waits. False where no call is
    /// on the wire.
    pub fn deliver(&mut self, alloc: Global) -> Result<bool, AllocError>
        ensures delivers { IfOk result (λ moved. Delivers self.old moved self.new) }
        ensures same { OnErr result (IsSame self.old self.new) }
        ensures spare { self.new.crew.spare ≡ self.old.crew.spare }
    {
        self.reports.reserve()?;
        match self.calls.oldest() {
            Some(call) => {
                let report = serve(&mut self.crew, &mut self.storage, alloc, call)?;
                self.calls.arrive();
                add(&mut self.reports, report);
                Ok(true)
            }
            None => Ok(false),
        }
    }

    /// The report that waits longest.
    pub fn oldest(&self) -> Option<&ReportMsg>
        ensures { option_copied result ≡ slice_get self.now.waiting 0 }
    {
        self.reports.oldest()
    }

    /// It waits no longer.
    pub fn hear(&mut self)
        ensures outside { outside_of self.new ≡ outside_of self.old }
        ensures wire { self.new.wire ≡ self.old.wire }
        ensures waiting { self.new.waiting ≡ drop 1 self.old.waiting }
        ensures spare { self.new.crew.spare ≡ self.old.crew.spare }
    {
        self.reports.arrive();
    }

    /// How many calls are on the wire.
    pub fn on_wire(&self) -> u64
        ensures { result ≡ length self.now.wire }
    {
        self.calls.len() as u64
    }

    /// How many reports wait.
    pub fn waits(&self) -> u64
        ensures { result ≡ length self.now.waiting }
    {
        self.reports.len() as u64
    }

    /// All calls on the wire and all reports that wait are lost. How many these were.
    pub fn lose(&mut self) -> u64
        ensures count { result ≡ length self.old.wire + length self.old.waiting }
        ensures outside { outside_of self.new ≡ outside_of self.old }
        ensures wire { self.new.wire ≡ [] }
        ensures waiting { self.new.waiting ≡ [] }
        ensures spare { self.new.crew.spare ≡ self.old.crew.spare }
    {
        let count = self.calls.len() as u64 + self.reports.len() as u64;
        self.calls.lose();
        self.reports.lose();
        count
    }

    /// Each call that was ever sent is on the wire once more, and each report that was ever made waits once more, the oldest
    /// first. How many these were.
    pub fn repeat(&mut self) -> Result<u64, AllocError>
        ensures count { IfOk result (λ count. count ≡ length self.old.sent + length self.old.reports) }
        ensures outside { OnOk result (outside_of self.new ≡ outside_of self.old) }
        ensures wire { OnOk result (self.new.wire ≡ self.old.wire ++ self.old.sent) }
        ensures waiting { OnOk result (self.new.waiting ≡ self.old.waiting ++ self.old.reports) }
        ensures same { OnErr result (IsSame self.old self.new) }
        ensures spare { self.new.crew.spare ≡ self.old.crew.spare }
    {
        self.calls.reserve_all()?;
        self.reports.reserve_all()?;
        let calls = self.calls.repeat() as u64;
        let reports = self.reports.repeat() as u64;
        Ok(calls + reports)
    }
}

// Has whom a call is for serve it.
fn serve(
    crew: &mut Crew,
    storage: &mut StorageActor,
    alloc: Global,
    call: &Call,
) -> Result<Option<ReportMsg>, AllocError>
    ensures report { IfOk result (λ report. (sent : List CallValue) (reports : List ReportValue) → report ≡ report_to (outside_by crew.old storage.old sent reports) call.now) }
    ensures outside { IfOk result (λ report. (sent : List CallValue) (reports : List ReportValue) → outside_by crew.new storage.new sent (with_report reports report) ≡ delivered (outside_by crew.old storage.old sent reports) call.now) }
    ensures same { OnErr result ((sent : List CallValue) (reports : List ReportValue) → outside_by crew.new storage.new sent reports ≡ outside_by crew.old storage.old sent reports) }
    ensures spare { crew.new.spare ≡ crew.old.spare }
{
    match &call.peer {
        Peer::Server(server) => {
            let report = crew.serve(server, call)?;
            Ok(report)
        }
        Peer::Storage => {
            let report = storage.serve(alloc, call)?;
            Ok(report)
        }
    }
}

// Adds a report, if there is one, in room that is there.
fn add(reports: &mut Mail<ReportMsg>, report: Option<ReportMsg>)
    requires spare { 1 ≤ reports.old.spare }
    requires room { 1 ≤ reports.old.room }
    ensures all { reports.new.all ≡ with_report reports.old.all report }
    ensures travels { reports.new.travels ≡ with_report reports.old.travels report }
{
    if let Some(report) = report {
        reports.send(report);
    }
}
