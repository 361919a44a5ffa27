//! What is done after submissions, reports, aborts, and servers that come and go.
ghost use Rattle.std.specs.Prelude.{◌≡◌, ◌≤◌, ◌<◌, IfSome, Some, false};
ghost use Rattle.std.specs.Option.{option_copied};
ghost use Rattle.hm_data.specs.declared.entry.Entry.TheVariants as entry_is;
ghost use Rattle.hm_model.specs.Journal.{Past};
ghost use Rattle.hm_model.specs.Tree.{node_of};
ghost use Rattle.hm_roster.specs.Behind.{IsCome, IsGone, IsHeard, IsRooted, IsSubmitted, fenced_in, number_of_some, server_to_fence};
ghost use Rattle.hm_roster.specs.Roster.{Follows, HasLists, IsBehind, IsSameBut, Owes};
ghost use Rattle.hm_tied.specs.Tied.{Debts};

use crate::desk::Desk;
use hm_data::{Args, Told};
use hm_lists::Steps;
use hm_names::{Pid, ServerName};
use hm_records::Records;
use std::marker::Brand;
use std::sync::ledger::{Blank, Ledger};

// The server that is to be fenced.
fn server_of_fence(args: &Args) -> Option<&ServerName>
    ensures { option_copied result ≡ server_to_fence args.now }
{
    match args {
        Args::FenceCall { server } => Some(server),
        _ => None,
    }
}

impl Desk {
    // Those that were set aside for want of a live server are ready.
    fn wake_held<L: Ledger>(&mut self, steps: &mut Steps<L>)
        ensures owes { (before : Past) (debts : Debts) → Owes before self.old debts → Owes before self.new (record debts { late = false }) }
        ensures same { IsSameBut self.old self.new }
        ensures rows { self.new.book.rows ≡ self.old.book.rows }
    {
        self.sched.wake_held(steps);
    }

    // The same, with a count of steps of its own.
    fn wake_held_uncounted<L: Ledger>(&mut self, blank: Blank)
        requires name { blank.name ≡ L.name }
        requires parts { blank.parts ≡ L.parts }
        requires some { 1 ≤ L.parts }
        ensures owes { (before : Past) (debts : Debts) → Owes before self.old debts → Owes before self.new (record debts { late = false }) }
        ensures same { IsSameBut self.old self.new }
        ensures rows { self.new.book.rows ≡ self.old.book.rows }
    {
        let mut steps = Steps::<L>::new(blank);
        self.wake_held(&mut steps);
    }

    // The same, where they may go on.
    pub(crate) fn wake_if<L: Ledger>(&mut self, late: bool, steps: &mut Steps<L>)
        ensures owes { (before : Past) (debts : Debts) → debts.late ≡ late → Owes before self.old debts → Owes before self.new (record debts { late = false }) }
        ensures same { IsSameBut self.old self.new }
    {
        if late {
            self.wake_held(steps);
        }
    }

    /// After a server that came up those that were set aside for want of one are ready.
    pub fn behind_up(&mut self, records: &Records)
        requires { IsCome records.now.past self.old }
        ensures follows { Follows records.now.past self.new }
        ensures same { IsSameBut self.old self.new }
    {
        let _legal = records.procedures();
        self.wake_held_uncounted::<Brand>(Blank::new(1));
    }

    /// After an abort there is nothing to do: whoever is aborted is before the point, where no server is needed. A law that does
    /// nothing.
    pub fn behind_abort(&self, records: &Records, pid: Pid)
        requires { IsBehind records.now.past (entry_is.Abort pid) self.now }
        ensures { Follows records.now.past self.now }
    {
        let _legal = records.procedures();
        let _pid = pid;
    }

    // The number of the list for the calls to the server that a procedure is to fence.
    fn number_fenced(&self, records: &Records, call: Pid) -> Option<u32>
        requires { HasLists self.now }
        ensures number { result ≡ number_of_some self.now (fenced_in (node_of records.now.past call.0)) }
        ensures below { IfSome result (λ number. number < self.now.sched.servers) }
    {
        let found = records.procedures().find(call)?;
        match server_of_fence(&found.args) {
            Some(server) => Some(self.number(Some(server))),
            None => None,
        }
    }

    // The one that called is ready, and where its call fences a server, those whose calls went there.
    fn hear<L: Ledger>(&mut self, records: &Records, call: Pid, steps: &mut Steps<L>)
        requires { IsHeard records.now.past call self.old }
        ensures follows { Follows records.now.past self.new }
        ensures same { IsSameBut self.old self.new }
    {
        let _legal = records.procedures();
        self.sched.wake(call, steps);
        if let Some(number) = self.number_fenced(records, call) {
            self.sched.wake_all(number, steps);
        }
    }

    // The same, with a count of steps of its own.
    fn hear_uncounted<L: Ledger>(&mut self, records: &Records, call: Pid, blank: Blank)
        requires name { blank.name ≡ L.name }
        requires parts { blank.parts ≡ L.parts }
        requires some { 1 ≤ L.parts }
        requires heard { IsHeard records.now.past call self.old }
        ensures follows { Follows records.now.past self.new }
        ensures same { IsSameBut self.old self.new }
    {
        let mut steps = Steps::<L>::new(blank);
        self.hear(records, call, &mut steps);
    }

    /// After a report the one that called is ready, and where its call fences a server, those whose calls went there.
    pub fn behind_report(&mut self, records: &Records, call: Pid, told: Told)
        requires { IsBehind records.now.past (entry_is.Report call told) self.old }
        ensures follows { Follows records.now.past self.new }
        ensures same { IsSameBut self.old self.new }
    {
        let _told = told;
        self.hear_uncounted::<Brand>(records, call, Blank::new(1));
    }

    // A root that was made last stands where it belongs; and those that were set aside are ready, where they may go on.
    fn line_up_last<L: Ledger>(&mut self, records: &Records, late: bool, steps: &mut Steps<L>)
        requires { IsRooted records.now.past late self.old }
        ensures follows { Follows records.now.past self.new }
        ensures same { IsSameBut self.old self.new }
    {
        let last = records.procedures().last_pid();
        self.line_up_from(records, last, last + 1, steps);
        self.wake_if(late, steps);
    }

    // The same, with a count of steps of its own.
    fn line_up_last_uncounted<L: Ledger>(&mut self, records: &Records, late: bool, blank: Blank)
        requires name { blank.name ≡ L.name }
        requires parts { blank.parts ≡ L.parts }
        requires some { 1 ≤ L.parts }
        requires rooted { IsRooted records.now.past late self.old }
        ensures follows { Follows records.now.past self.new }
        ensures same { IsSameBut self.old self.new }
    {
        let mut steps = Steps::<L>::new(blank);
        self.line_up_last(records, late, &mut steps);
    }

    /// After a submission, whose root is enlisted, that is ready.
    pub fn behind_submit(&mut self, records: &Records)
        requires { IsSubmitted records.now.past self.old }
        ensures follows { Follows records.now.past self.new }
        ensures same { IsSameBut self.old self.new }
    {
        let _legal = records.procedures();
        self.line_up_last_uncounted::<Brand>(records, false, Blank::new(1));
    }

    /// After a server that went down the root of its crash, which is enlisted, is ready; and so are those that were set aside for
    /// want of a live server: they may need none any more, or another.
    pub fn behind_down(&mut self, records: &Records)
        requires { IsGone records.now.past self.old }
        ensures follows { Follows records.now.past self.new }
        ensures same { IsSameBut self.old self.new }
    {
        let _legal = records.procedures();
        self.line_up_last_uncounted::<Brand>(records, true, Blank::new(1));
    }
}
