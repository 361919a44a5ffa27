//! Servers that come up and go down.
ghost use Rattle.std.specs.Prelude.{◌≡◌, ◌≤◌, ◌+◌, IfErr, IfOk, IfNone, IfSome, OnOk, IsErrOf, true, false};
ghost use Rattle.hm_ports.specs.Faults.{Rose};
ghost use Rattle.hm_data.specs.declared.entry.Entry.TheVariants as entry_is;
ghost use Rattle.hm_exec.specs.Fleet.{AnswersDown, AnswersUp, BringsUp, CanUp, CannotDown, CannotUp, IsOlder, FaultsCopying, FaultsFirst, PutsDown};
ghost use Rattle.hm_exec.specs.Moment.{FaultsAt, IsAdded, IsGoing, past_of};
ghost use Rattle.hm_exec.specs.Sparing.{SparesDown, SparesUp};
ghost use Rattle.hm_exec.specs.View.{moment_of};
ghost use Rattle.hm_hall.specs.Recording.{Accepts};
ghost use Rattle.hm_model.specs.Base.{IsBegun};
ghost use Rattle.hm_model.specs.Fleet.{has_older_live as older_lives, is_live as lives};
ghost use Rattle.hm_model.specs.Rules.{Allowed, IsLegal};
ghost use Rattle.hm_model.specs.Tree.{made};
ghost use Rattle.hm_places.specs.Laws.{StandingsTell};

use crate::adding::{add, refuse};
use crate::answers::{DownWhy, UpWhy};
use crate::exec::Exec;
use crate::making::add_made;
use hm_data::Entry;
use hm_frames::{entries_fit_frames, server_fits};
use hm_hall::{HallFault, Recorder};
use hm_names::{Copied, Pid, ServerName};
use hm_places::{DownRefused, UpRefused, servers_follow};
use hm_state::State;
use std::alloc::{AllocError, Global};

// The journal of a state has begun, and its servers tell who is live: a law that does nothing.
fn fleet_is_told(state: &State)
    ensures begun { IsBegun state.now.past }
    ensures legal { IsLegal state.now.past }
    ensures tell { StandingsTell state.now.past }
{
    servers_follow();
    let _begun = state.journal();
}

// A copy of the older live server of the address of one that may come up, if there is one.
fn older_of(
    state: &State,
    alloc: Global,
    server: &ServerName,
) -> Result<Option<ServerName>, AllocError>
    ensures none { IfOk result (λ older. IfNone older (older_lives state.now.past server.now ≡ false)) }
    ensures some { IfOk result (λ older. IfSome older (IsOlder state.now.past server.now)) }
{
    fleet_is_told(state);
    state.servers().older_of(alloc, server)
}

/// Whether a server may come up, and else why not.
pub fn may_come_up(state: &State, server: &ServerName) -> Result<(), UpRefused>
    ensures can { OnOk result (CanUp state.now.past server.now) }
    ensures cannot { IfErr result (CannotUp state.now.past server.now) }
{
    fleet_is_told(state);
    state.servers().may_come_up(server)
}

// Whether a server may go down, and else why not.
fn may_go_down(state: &State, server: &ServerName) -> Result<(), DownRefused>
    ensures can { OnOk result (lives state.now.past server.now ≡ true) }
    ensures cannot { IfErr result (CannotDown state.now.past server.now) }
{
    fleet_is_told(state);
    state.servers().may_go_down(server)
}

// The server that an entry brings up.
fn newcomer(up: Entry) -> ServerName
    requires { BringsUp up }
    ensures { up ≡ entry_is.Up result }
{
    match up {
        Entry::Up { server } => server,
        _ => unreachable!(),
    }
}

impl<R: Recorder> Exec<R> {
    // Gives a server the number of a list for the calls to it.
    fn number(&mut self, alloc: Global, server: &ServerName) -> Result<(), AllocError>
        ensures same { moment_of R.kept self.new ≡ moment_of R.kept self.old }
        ensures recorder { self.new.recorder ≡ self.old.recorder }
    {
        self.desk.number_server(alloc, self.state.records(), server)
    }

    // A live server goes down: its crash has the next number.
    fn put_down(&mut self, alloc: Global, server: &ServerName) -> Result<Pid, HallFault>
        requires going { IsGoing (moment_of R.kept self.old) }
        requires live { lives (past_of (moment_of R.kept self.old)) server.now ≡ true }
        ensures down { IfOk result (λ pid. IsAdded (moment_of R.kept self.old) (entry_is.Down server.now) (moment_of R.kept self.new) × (pid.0 ≡ made (past_of (moment_of R.kept self.old)) + 1)) }
        ensures refused { IfErr result (λ fault. FaultsCopying (moment_of R.kept self.old) (entry_is.Down server.now) fault (moment_of R.kept self.new)) }
        ensures fault { IsErrOf result HallFault.LogFault → Rose (R.faults self.old.recorder) (R.faults self.new.recorder) }
        ensures counts { IsErrOf result HallFault.Memory → R.faults self.new.recorder ≡ R.faults self.old.recorder }
        ensures later { R.faults self.old.recorder ≤ R.faults self.new.recorder }
        ensures opened { R.opened self.new.recorder ≡ R.opened self.old.recorder }
    {
        server_fits(server);
        entries_fit_frames();
        fleet_is_told(&self.state);
        let entry = Entry::Down {
            server: server.copy(alloc)?,
        };
        add_made(
            &mut self.state,
            &mut self.desk,
            &mut self.recorder,
            alloc,
            entry,
            None,
        )?;
        self.desk.behind_down(self.state.records());
        Ok(Pid(self.state.last_pid()))
    }

    // The older server of the address that is live, if there is one, goes down, and is told with the number of its crash.
    fn put_older_down(
        &mut self,
        alloc: Global,
        server: &ServerName,
    ) -> Result<Option<(ServerName, Pid)>, HallFault>
        requires going { IsGoing (moment_of R.kept self.old) }
        requires can { CanUp (past_of (moment_of R.kept self.old)) server.now }
        ensures none { IfOk result (λ down. IfNone down ((older_lives (past_of (moment_of R.kept self.old)) server.now ≡ false) × (moment_of R.kept self.new ≡ moment_of R.kept self.old))) }
        ensures down { IfOk result (λ down. IfSome down (λ older. PutsDown (moment_of R.kept self.old) server.now older.0 older.1 (moment_of R.kept self.new))) }
        ensures allowed { OnOk result (Allowed (past_of (moment_of R.kept self.new)) (entry_is.Up server.now)) }
        ensures refused { IfErr result (λ fault. FaultsFirst (moment_of R.kept self.old) server.now fault (moment_of R.kept self.new)) }
        ensures fault { IsErrOf result HallFault.LogFault → Rose (R.faults self.old.recorder) (R.faults self.new.recorder) }
        ensures later { R.faults self.old.recorder ≤ R.faults self.new.recorder }
        ensures opened { R.opened self.new.recorder ≡ R.opened self.old.recorder }
    {
        fleet_is_told(&self.state);
        let Some(older) = older_of(&self.state, alloc, server)? else {
            return Ok(None);
        };
        let pid = self.put_down(alloc, &older)?;
        Ok(Some((older, pid)))
    }

    // A server that may come up does so.
    fn bring_up(&mut self, alloc: Global, server: ServerName) -> Result<(), HallFault>
        requires going { IsGoing (moment_of R.kept self.old) }
        requires allowed { Allowed (past_of (moment_of R.kept self.old)) (entry_is.Up server) }
        ensures up { OnOk result (IsAdded (moment_of R.kept self.old) (entry_is.Up server) (moment_of R.kept self.new)) }
        ensures refused { IfErr result (λ fault. FaultsAt (moment_of R.kept self.old) (entry_is.Up server) fault (moment_of R.kept self.new)) }
        ensures fault { IsErrOf result HallFault.LogFault → Rose (R.faults self.old.recorder) (R.faults self.new.recorder) }
        ensures later { R.faults self.old.recorder ≤ R.faults self.new.recorder }
        ensures opened { R.opened self.new.recorder ≡ R.opened self.old.recorder }
    {
        server_fits(&server);
        entries_fit_frames();
        let _legal = self.state.journal();
        add(
            &mut self.state,
            &mut self.recorder,
            alloc,
            Entry::Up { server },
        )?;
        self.desk.behind_up(self.state.records());
        Ok(())
    }

    // The same of a server that may come up, where the recorder would record what comes first.
    fn come_up(
        &mut self,
        alloc: Global,
        server: ServerName,
    ) -> Result<Option<(ServerName, Pid)>, HallFault>
        requires going { IsGoing (moment_of R.kept self.old) }
        requires can { CanUp (past_of (moment_of R.kept self.old)) server }
        requires accepted { Accepts (R.kept self.old.recorder) (entry_is.Up server) }
        ensures up { IfOk result (λ down. AnswersUp (moment_of R.kept self.old) server (Ok down) (moment_of R.kept self.new)) }
        ensures refused { IfErr result (λ fault. AnswersUp (moment_of R.kept self.old) server (Err (UpWhy.Fault fault)) (moment_of R.kept self.new)) }
        ensures fault { IsErrOf result HallFault.LogFault → Rose (R.faults self.old.recorder) (R.faults self.new.recorder) }
        ensures later { R.faults self.old.recorder ≤ R.faults self.new.recorder }
        ensures opened { R.opened self.new.recorder ≡ R.opened self.old.recorder }
    {
        fleet_is_told(&self.state);
        self.number(alloc, &server)?;
        let down = self.put_older_down(alloc, &server)?;
        self.bring_up(alloc, server)?;
        Ok(down)
    }

    // The same of a server that may come up. What the recorder would refuse needs no memory: the entry of an older server that goes
    // down first is as long.
    fn change(
        &mut self,
        alloc: Global,
        server: ServerName,
    ) -> Result<Option<(ServerName, Pid)>, HallFault>
        requires going { IsGoing (moment_of R.kept self.old) }
        requires can { CanUp (past_of (moment_of R.kept self.old)) server }
        ensures up { IfOk result (λ down. AnswersUp (moment_of R.kept self.old) server (Ok down) (moment_of R.kept self.new)) }
        ensures refused { IfErr result (λ fault. AnswersUp (moment_of R.kept self.old) server (Err (UpWhy.Fault fault)) (moment_of R.kept self.new)) }
        ensures fault { IsErrOf result HallFault.LogFault → Rose (R.faults self.old.recorder) (R.faults self.new.recorder) }
        ensures later { R.faults self.old.recorder ≤ R.faults self.new.recorder }
        ensures opened { R.opened self.new.recorder ≡ R.opened self.old.recorder }
    {
        server_fits(&server);
        entries_fit_frames();
        fleet_is_told(&self.state);
        let up = Entry::Up { server };
        if self.recorder.will_refuse(&up) {
            refuse(&mut self.recorder, alloc, up)?;
            return Ok(None);
        }
        self.come_up(alloc, newcomer(up))
    }

    /// Brings a server up. An older one of its address that is live goes down first; it is told with the number of the root that does
    /// what its crash asks for.
    pub fn server_up(
        &mut self,
        alloc: Global,
        server: ServerName,
    ) -> Result<Option<(ServerName, Pid)>, UpWhy>
        ensures answers { AnswersUp (moment_of R.kept self.old) server result (moment_of R.kept self.new) }
        ensures fault { IsErrOf result (UpWhy.Fault HallFault.LogFault) → Rose (R.faults self.old.recorder) (R.faults self.new.recorder) }
        ensures later { R.faults self.old.recorder ≤ R.faults self.new.recorder }
        ensures opened { R.opened self.new.recorder ≡ R.opened self.old.recorder }
        ensures spared { SparesUp result → self.new.recorder ≡ self.old.recorder }
    {
        if let Some(why) = self.recorder.halted() {
            return Err(UpWhy::Fault(HallFault::Halted(why)));
        }
        if let Err(why) = may_come_up(&self.state, &server) {
            return Err(UpWhy::Up(why));
        }
        match self.change(alloc, server) {
            Ok(down) => Ok(down),
            Err(fault) => Err(UpWhy::Fault(fault)),
        }
    }

    /// Puts a live server down, and answers the number of the root that does what its crash asks for.
    pub fn server_down(&mut self, alloc: Global, server: &ServerName) -> Result<Pid, DownWhy>
        ensures answers { AnswersDown (moment_of R.kept self.old) server.now result (moment_of R.kept self.new) }
        ensures fault { IsErrOf result (DownWhy.Fault HallFault.LogFault) → Rose (R.faults self.old.recorder) (R.faults self.new.recorder) }
        ensures counts { IsErrOf result (DownWhy.Fault HallFault.Memory) → R.faults self.new.recorder ≡ R.faults self.old.recorder }
        ensures later { R.faults self.old.recorder ≤ R.faults self.new.recorder }
        ensures opened { R.opened self.new.recorder ≡ R.opened self.old.recorder }
        ensures spared { SparesDown result → self.new.recorder ≡ self.old.recorder }
    {
        if let Some(why) = self.recorder.halted() {
            return Err(DownWhy::Fault(HallFault::Halted(why)));
        }
        if let Err(why) = may_go_down(&self.state, server) {
            return Err(DownWhy::Down(why));
        }
        match self.put_down(alloc, server) {
            Ok(pid) => Ok(pid),
            Err(fault) => Err(DownWhy::Fault(fault)),
        }
    }
}
