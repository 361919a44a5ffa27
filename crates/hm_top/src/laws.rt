//! Laws of the definitions that the contracts cite.
ghost use Rattle.std.specs.Prelude.{◌≡◌, ℕ, List, Some, Ok};
ghost use Rattle.hm_data.specs.declared.entry.Entry.{Entry};
ghost use Rattle.hm_hall.specs.Recording.{Passes, bytes_of};
ghost use Rattle.hm_journal.specs.Stored.{IsOnDisk};
ghost use Rattle.hm_script.specs.declared.command.Command.{Command};
ghost use Rattle.hm_script.specs.declared.bad.Bad.{Bad};
ghost use Rattle.hm_top.specs.declared.status.LogWhy.{LogWhy};
ghost use Rattle.hm_top.specs.declared.status.RunStatus.TheVariants as status_is;
ghost use Rattle.hm_commands.specs.Hands.{sheets_used};
ghost use Rattle.hm_top.specs.declared.words.Form.{Form};
ghost use Rattle.hm_top.specs.declared.words.Form.TheVariants as form_is;
ghost use Rattle.hm_top.specs.Grants.{RunsRefuseAsGranted};
ghost use Rattle.hm_top.specs.Repeats.{RunsRepeatTwice};
ghost use Rattle.hm_top.specs.Run.{EachRun, KeepsTo, RanOut, taken_by};
ghost use Rattle.hm_top.specs.Script.{IsBad, IsScript};
ghost use Rattle.hm_top.specs.Words.{form_of, misfit_of};

use hm_disk::Disk;
use hm_ports::{Sink, Source};

/// A script isn't refused.
pub fn right_or_wrong()
    ensures { (bytes : List ℕ) (commands : List Command) (bad : Bad) → IsScript bytes commands → IsBad bytes bad → ⊥ }
{}

/// What is so at each status of a run that keeps to its contract. So a body that always answered one of them would not.
pub fn each_status_has_a_cause<S: Source, K: Sink, D: Disk>()
    ensures usage { (word : ℕ) → EachRun S.Source K.Sink D.Disk (λ run. KeepsTo run (status_is.Usage word) → misfit_of run.words ≡ Some word) }
    ensures bad_script { (bad : Bad) → EachRun S.Source K.Sink D.Disk (λ run. KeepsTo run (status_is.BadScript bad) →
        (form_of run.words ≡ Ok form_is.Run) × (run.script.tells → IsBad run.script.before bad)) }
    ensures log_fault { EachRun S.Source K.Sink D.Disk (λ run. KeepsTo run status_is.LogFault → run.disk.failed) }
    ensures log_refused { (why : LogWhy) (form : Form) (journal : List Entry) → EachRun S.Source K.Sink D.Disk (λ run. KeepsTo run (status_is.LogRefused why) →
        form_of run.words ≡ Ok form → run.disk.tells → IsOnDisk (sheets_used run.hands) run.disk.before journal → taken_by form journal → ⊥) }
    ensures read_fault { EachRun S.Source K.Sink D.Disk (λ run. KeepsTo run status_is.ReadFault → run.script.failed) }
    ensures write_fault { EachRun S.Source K.Sink D.Disk (λ run. KeepsTo run status_is.WriteFault → run.out.failed) }
    ensures journal_full { (bytes : ℕ) → EachRun S.Source K.Sink D.Disk (λ run. KeepsTo run (status_is.JournalFull bytes) →
        (journal : List Entry) × (entry : Entry) × (bytes ≡ bytes_of journal) × Passes run.limits.hard journal entry) }
    ensures memory { EachRun S.Source K.Sink D.Disk (λ run. KeepsTo run status_is.Memory → (form : Form) × (form_of run.words ≡ Ok form) × RanOut run form) }
{}

/// Of each server, and of the storage, a run reports no more refusals than its lines `refuse` that were answered `armed` granted,
/// whatever was lost or repeated, and whoever died in between.
pub fn refusals_are_granted()
    ensures { RunsRefuseAsGranted }
{}

/// Each line `repeated M` of a run has M at least twice the reports that the run has recorded by then: each was made of a call that
/// was sent, and both are sent again.
pub fn repeats_count_twice_the_reports()
    ensures { RunsRepeatTwice }
{}
