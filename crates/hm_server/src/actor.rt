//! A region server.
ghost use Rattle.std.specs.Prelude.{◌≡◌, IfOk, OnErr, Some};
ghost use Rattle.std.specs.Option.{option_map};
ghost use Rattle.hm_model.specs.Actors.{begun, serve, serve_by, age, opening, closing, holds, once_more, reported, behind};
ghost use Rattle.hm_server.specs.Actors.{actor_of, held_in, last_in, service, AreHeldBy, IsActor};

use crate::duties::{Duties, age_of, each_of, keep, last_of};
use crate::duty::Duty;
use crate::held::Held;
use hm_data::{Call, Peer, ReportMsg, Told, Verb};
use hm_names::{Copied, Pid, RegionName, ServerName};
use std::alloc::{AllocError, Global};
use std::cmp::Ordering;
use std::marker::Model;

/// A region server. Contracts see its name, what it last served about each region, and how many opens it is to refuse.
#[derive(Drop)]
pub struct Actor {
    alloc: Global,
    name: ServerName,
    duties: Duties,
    refusals: u32,
}

impl Model for Actor {
    ghost use Rattle.hm_server.specs.Actors.{ActorView, duties_of};

    ghost Value = { ActorView };

    ghost view = { λ s. record { name = s.name; duties = duties_of s.duties; refusals = s.refusals } };
}

// What a call that is new does.
#[derive(Clone, Copy)]
pub(crate) struct Doing {
    told: Told,
    holds: bool,
    refusals: u32,
}

impl Actor {
    /// A server that serves from now on. It takes no memory yet.
    pub fn new(alloc: Global, name: ServerName) -> Actor
        ensures { IsActor (begun name) (actor_of result) }
    {
        Actor {
            alloc,
            name,
            duties: None,
            refusals: 0,
        }
    }

    /// Its name.
    pub fn name(&self) -> &ServerName
        ensures { result.now ≡ self.now.name }
    {
        &self.name
    }

    /// Serves a call, whoever it is for, and answers it. There is no answer to a call about a region that is older than the
    /// last one, nor to one for the storage.
    pub fn serve(&mut self, call: &Call) -> Result<Option<ReportMsg>, AllocError>
        ensures report { IfOk result (λ report. report ≡ (let served = serve (actor_of self.old) call.now in served.1)) }
        ensures actor { IfOk result (λ report. IsActor (let served = serve (actor_of self.old) call.now in served.0) (actor_of self.new)) }
        ensures kept { OnErr result (self.new ≡ self.old) }
    {
        match &call.verb {
            Verb::AssignRegion(region) => {
                let doing = self.opening(region);
                self.serve_about(call.id, region, doing)
            }
            Verb::CloseRegion(region) => {
                let doing = self.closing();
                self.serve_about(call.id, region, doing)
            }
            _ => Ok(None),
        }
    }

    /// Sets how many of the next opens are refused.
    pub fn refuse(&mut self, count: u32)
        ensures refusals { self.new.refusals ≡ count }
        ensures name { self.new.name ≡ self.old.name }
        ensures duties { self.new.duties ≡ self.old.duties }
    {
        self.refusals = count;
    }

    /// Whether it holds a region.
    pub fn holds(&self, region: &RegionName) -> bool
        ensures { result ≡ holds (actor_of self.now) region.now }
    {
        match last_of(&self.duties, region) {
            Some(last) => last.holds,
            None => false,
        }
    }

    /// The regions that it holds. It takes time in all that it served a call about.
    pub fn held(&self) -> Held<'_>
        ensures list { result ≡ held_in self.now.duties }
        ensures held { AreHeldBy (actor_of self.now) result }
    {
        Held::new(each_of(&self.duties))
    }

    // What a new call to open a region does.
    fn opening(&self, region: &RegionName) -> Doing
        ensures { service result ≡ opening (actor_of self.now) region.now }
    {
        if self.refusals > 0 {
            return Doing {
                told: Told::FailedOpen,
                holds: self.holds(region),
                refusals: self.refusals - 1,
            };
        }
        Doing {
            told: Told::Opened,
            holds: true,
            refusals: self.refusals,
        }
    }

    // What a new call to close a region does.
    fn closing(&self) -> Doing
        ensures { service result ≡ closing (actor_of self.now) }
    {
        Doing {
            told: Told::Closed,
            holds: false,
            refusals: self.refusals,
        }
    }

    // Serves a call about a region, which does this if it is new.
    fn serve_about(
        &mut self,
        id: Pid,
        region: &RegionName,
        doing: Doing,
    ) -> Result<Option<ReportMsg>, AllocError>
        ensures report { IfOk result (λ report. report ≡ (let served = serve_by (age (last_in self.old.duties region.now) id) (actor_of self.old) id region.now (service doing) in served.1)) }
        ensures actor { IfOk result (λ report. IsActor (let served = serve_by (age (last_in self.old.duties region.now) id) (actor_of self.old) id region.now (service doing) in served.0) (actor_of self.new)) }
        ensures kept { OnErr result (self.new ≡ self.old) }
    {
        match age_of(last_of(&self.duties, region), id) {
            Ordering::Less => Ok(None),
            Ordering::Equal => self.once_more(id, region),
            Ordering::Greater => self.serve_new(id, region, doing),
        }
    }

    // The answer that was given last about a region, once more.
    fn once_more(&self, id: Pid, region: &RegionName) -> Result<Option<ReportMsg>, AllocError>
        ensures { IfOk result (λ report. report ≡ once_more (actor_of self.now) id (last_in self.now.duties region.now)) }
    {
        let Some(last) = last_of(&self.duties, region) else {
            return Ok(None);
        };
        Ok(Some(self.report(id, last.told)?))
    }

    // Serves a new call about a region.
    fn serve_new(
        &mut self,
        id: Pid,
        region: &RegionName,
        doing: Doing,
    ) -> Result<Option<ReportMsg>, AllocError>
        ensures report { IfOk result (λ report. report ≡ Some (reported (actor_of self.old) id (let does = service doing in does.told))) }
        ensures actor { IfOk result (λ report. IsActor (behind (actor_of self.old) id region.now (service doing)) (actor_of self.new)) }
        ensures kept { OnErr result (self.new ≡ self.old) }
    {
        let report = self.report(id, doing.told)?;
        let name = region.copy(self.alloc)?;
        let duty = Duty {
            id,
            told: doing.told,
            holds: doing.holds,
        };
        keep(&mut self.duties, self.alloc, name, duty)?;
        self.refusals = doing.refusals;
        Ok(Some(report))
    }

    // An answer to a call.
    fn report(&self, id: Pid, told: Told) -> Result<ReportMsg, AllocError>
        ensures { IfOk result (λ report. report ≡ reported (actor_of self.now) id told) }
    {
        Ok(ReportMsg {
            call: id,
            from: Peer::Server(self.name.copy(self.alloc)?),
            told,
        })
    }
}
