//! Laws of the definitions that the contracts cite.
ghost use Rattle.std.specs.Prelude.{ℕ, List, Option, All};
ghost use Rattle.hm_data.specs.declared.call.Told.{Told};
ghost use Rattle.hm_data.specs.declared.entry.Entry.{Entry};
ghost use Rattle.hm_data.specs.declared.entry.Entry.TheVariants as entry_is;
ghost use Rattle.hm_data.specs.declared.part.Part.{Part};
ghost use Rattle.hm_data.specs.declared.request.Request.{Request};
ghost use Rattle.hm_data.specs.declared.sheet.Sheet.{Sheet};
ghost use Rattle.hm_data.specs.declared.step.StepOut.{StepOut};
ghost use Rattle.hm_names.specs.Server.{Server};
ghost use Rattle.hm_names.specs.Servers.{IsServer};
ghost use Rattle.hm_names.specs.declared.nonce.Nonce.{Nonce};
ghost use Rattle.hm_names.specs.declared.pid.Pid.{Pid};
ghost use Rattle.hm_entry.specs.Fits.{EntryFits, PartFits, RequestFits};
ghost use Rattle.hm_model.specs.Journal.{back};
ghost use Rattle.hm_model.specs.Requests.{MaySubmit};
ghost use Rattle.hm_model.specs.Rules.{Allowed, IsLegal};
ghost use Rattle.hm_model.specs.Base.{AreSheets};
ghost use Rattle.hm_hall.specs.Recording.{CanBeRecorded};

/// Each entry that may stand after a journal can be recorded: its spelling fits a frame. Of a request and of a part it has to be known that
/// they fit, since the rules bound neither names nor keys.
pub fn entries_fit_frames()
    ensures start { (sheets : List Sheet) → AreSheets sheets → CanBeRecorded (entry_is.Start sheets) }
    ensures submit { (nonce : Nonce) (request : Request) → MaySubmit request → RequestFits request →
        CanBeRecorded (entry_is.Submit nonce request) }
    ensures step { (journal : List Entry) (pid : Pid) (pick : Option Server) (out : StepOut) → IsLegal (back journal) → All EntryFits journal →
        Allowed (back journal) (entry_is.Step pid pick out) → CanBeRecorded (entry_is.Step pid pick out) }
    ensures undo { (journal : List Entry) (pid : Pid) (row : ℕ) (out : StepOut) → IsLegal (back journal) → All EntryFits journal →
        Allowed (back journal) (entry_is.Undo pid row out) → CanBeRecorded (entry_is.Undo pid row out) }
    ensures report { (call : Pid) (told : Told) → CanBeRecorded (entry_is.Report call told) }
    ensures up { (server : Server) → IsServer server → CanBeRecorded (entry_is.Up server) }
    ensures down { (server : Server) → IsServer server → CanBeRecorded (entry_is.Down server) }
    ensures abort { (pid : Pid) → CanBeRecorded (entry_is.Abort pid) }
    ensures base { (journal : List Entry) (part : Part) → Allowed (back journal) (entry_is.Base part) → PartFits part →
        CanBeRecorded (entry_is.Base part) }
    ensures adopt { (journal : List Entry) (sheets : List Sheet) → Allowed (back journal) (entry_is.Adopt sheets) →
        CanBeRecorded (entry_is.Adopt sheets) }
{}
