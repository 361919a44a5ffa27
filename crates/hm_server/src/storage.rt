//! The storage.
ghost use Rattle.std.specs.Prelude.{◌≡◌, ◌<◌, ◌==◌, ◌||◌, IfOk, OnErr, OnOk, Some, if◌then◌else◌};
ghost use Rattle.std.specs.Option.{option_map};
ghost use Rattle.hm_names.specs.Server.{Server};
ghost use Rattle.hm_names.specs.declared.pid.Pid.{Pid as PidValue};
ghost use Rattle.hm_data.specs.declared.call.Told.TheVariants as told_is;
ghost use Rattle.hm_model.specs.Storages.{empty_storage, store, stored, answered, fence_in, lay_in, refuse_in};
ghost use Rattle.hm_model.specs.Fleet.{same_server};
ghost use Rattle.hm_server.specs.Actors.{storage_of, answer_in, is_fenced_in, is_laid_in, IsStorage};

use hm_data::{Call, Peer, ReportMsg, Told, Verb};
use hm_index::Index;
use hm_names::{Copied, Pid, ServerName};
use std::alloc::{AllocError, Global};
use std::marker::Model;

/// The storage. Contracts see what it answered to each call, which servers it fenced, which layouts are there, and how
/// many it is to refuse.
#[derive(Drop)]
pub struct StorageActor {
    answers: Index<Pid, Told>,
    fenced: Index<ServerName, ()>,
    laid: Index<Pid, bool>,
    refusals: u32,
}

impl Model for StorageActor {
    ghost use Rattle.hm_server.specs.Actors.{StorageView};

    ghost Value = { StorageView };

    ghost view = { λ s. record { answers = s.answers.pairs; fenced = s.fenced.pairs; laid = s.laid.pairs; refusals = s.refusals } };
}

impl StorageActor {
    /// A storage that served nothing.
    pub fn new(alloc: Global) -> Result<StorageActor, AllocError>
        ensures { IfOk result (λ storage. IsStorage empty_storage (storage_of storage)) }
    {
        Ok(StorageActor {
            answers: Index::new(alloc)?,
            fenced: Index::new(alloc)?,
            laid: Index::new(alloc)?,
            refusals: 0,
        })
    }

    /// Has a server fenced, by no call.
    pub fn show_fenced(&mut self, alloc: Global, server: &ServerName) -> Result<(), AllocError>
        ensures storage { OnOk result (IsStorage (fence_in server.now (storage_of self.old)) (storage_of self.new)) }
        ensures kept { OnErr result (self.new ≡ self.old) }
    {
        add_fence(&mut self.fenced, alloc, server)?;
        Ok(())
    }

    /// Has the layout of a root be there, or not, by no call.
    pub fn show_laid(&mut self, alloc: Global, root: Pid, there: bool) -> Result<(), AllocError>
        ensures storage { OnOk result (IsStorage (lay_in root there (storage_of self.old)) (storage_of self.new)) }
        ensures kept { OnErr result (self.new ≡ self.old) }
    {
        set_layout(&mut self.laid, alloc, root, there)?;
        Ok(())
    }

    /// Serves a call, whoever it is for, and answers it. There is no answer to a call about a region.
    pub fn serve(&mut self, alloc: Global, call: &Call) -> Result<Option<ReportMsg>, AllocError>
        ensures report { IfOk result (λ report. report ≡ (let served = store (storage_of self.old) call.now in served.1)) }
        ensures storage { IfOk result (λ report. IsStorage (let served = store (storage_of self.old) call.now in served.0) (storage_of self.new)) }
        ensures kept { OnErr result (self.new ≡ self.old) }
    {
        let id = call.id;
        match &call.verb {
            Verb::AssignRegion(_) => Ok(None),
            Verb::CloseRegion(_) => Ok(None),
            Verb::Fence(server) => match self.once_more(id) {
                Some(report) => Ok(Some(report)),
                None => self.fence(alloc, id, server),
            },
            Verb::Layout(root) => match self.once_more(id) {
                Some(report) => Ok(Some(report)),
                None if self.refusals > 0 => self.refuse_layout(alloc, id),
                None => self.lay(alloc, id, *root, true, Told::LaidOut),
            },
            Verb::Sweep(root) => match self.once_more(id) {
                Some(report) => Ok(Some(report)),
                None => self.lay(alloc, id, *root, false, Told::Swept),
            },
        }
    }

    /// Sets how many of the next layouts are refused.
    pub fn refuse(&mut self, count: u32)
        ensures refusals { self.new.refusals ≡ count }
        ensures answers { self.new.answers ≡ self.old.answers }
        ensures fenced { self.new.fenced ≡ self.old.fenced }
        ensures laid { self.new.laid ≡ self.old.laid }
    {
        self.refusals = count;
    }

    /// Whether it fenced a server.
    pub fn has_fenced(&self, server: &ServerName) -> bool
        ensures { result ≡ is_fenced_in self.now.fenced server.now }
    {
        self.fenced.get(server).is_some()
    }

    // The answer that was given to a call, once more.
    fn once_more(&self, id: Pid) -> Option<ReportMsg>
        ensures { result ≡ option_map (stored id) (answer_in self.now.answers id) }
    {
        match self.answers.get(&id) {
            Some(told) => Some(report(id, *told)),
            None => None,
        }
    }

    // Fences a server by a new call.
    fn fence(
        &mut self,
        alloc: Global,
        id: Pid,
        server: &ServerName,
    ) -> Result<Option<ReportMsg>, AllocError>
        ensures report { IfOk result (λ report. report ≡ Some (stored id told_is.Fenced)) }
        ensures storage { IfOk result (λ report. IsStorage (answered id told_is.Fenced (fence_in server.now (storage_of self.old))) (storage_of self.new)) }
        ensures kept { OnErr result (self.new ≡ self.old) }
    {
        self.answers.reserve(alloc, 1)?;
        add_fence(&mut self.fenced, alloc, server)?;
        self.answers.set(id, Told::Fenced);
        Ok(Some(report(id, Told::Fenced)))
    }

    // Makes a layout or removes it by a new call.
    fn lay(
        &mut self,
        alloc: Global,
        id: Pid,
        root: Pid,
        there: bool,
        told: Told,
    ) -> Result<Option<ReportMsg>, AllocError>
        ensures report { IfOk result (λ report. report ≡ Some (stored id told)) }
        ensures storage { IfOk result (λ report. IsStorage (answered id told (lay_in root there (storage_of self.old))) (storage_of self.new)) }
        ensures kept { OnErr result (self.new ≡ self.old) }
    {
        self.answers.reserve(alloc, 1)?;
        set_layout(&mut self.laid, alloc, root, there)?;
        self.answers.set(id, told);
        Ok(Some(report(id, told)))
    }

    // Refuses a layout.
    fn refuse_layout(&mut self, alloc: Global, id: Pid) -> Result<Option<ReportMsg>, AllocError>
        requires { 0 < self.old.refusals }
        ensures report { IfOk result (λ report. report ≡ Some (stored id told_is.Refused)) }
        ensures storage { IfOk result (λ report. IsStorage (answered id told_is.Refused (refuse_in (storage_of self.old))) (storage_of self.new)) }
        ensures kept { OnErr result (self.new ≡ self.old) }
    {
        self.answers.reserve(alloc, 1)?;
        self.answers.set(id, Told::Refused);
        self.refusals -= 1;
        Ok(Some(report(id, Told::Refused)))
    }
}

// Fences a server.
fn add_fence(
    fenced: &mut Index<ServerName, ()>,
    alloc: Global,
    server: &ServerName,
) -> Result<(), AllocError>
    ensures fenced { OnOk result ((other : Server) → (same_server server.now other || is_fenced_in fenced.old.pairs other) ≡ is_fenced_in fenced.new.pairs other) }
    ensures kept { OnErr result (fenced.new.pairs ≡ fenced.old.pairs) }
{
    fenced.reserve(alloc, 1)?;
    let name = server.copy(alloc)?;
    fenced.set(name, ());
    Ok(())
}

// Makes a layout or removes it.
fn set_layout(
    laid: &mut Index<Pid, bool>,
    alloc: Global,
    root: Pid,
    there: bool,
) -> Result<(), AllocError>
    ensures laid { OnOk result ((other : PidValue) → (if root.0 == other.0 then there else is_laid_in laid.old.pairs other) ≡ is_laid_in laid.new.pairs other) }
    ensures kept { OnErr result (laid.new.pairs ≡ laid.old.pairs) }
{
    laid.reserve(alloc, 1)?;
    laid.set(root, there);
    Ok(())
}

// An answer to a call.
fn report(id: Pid, told: Told) -> ReportMsg
    ensures { result ≡ stored id told }
{
    ReportMsg {
        call: id,
        from: Peer::Storage,
        told,
    }
}
