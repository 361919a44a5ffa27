//! Laws of the definitions that the contracts cite.
ghost use Rattle.std.specs.Prelude.{◌≡◌, ◌⊎◌, ℕ, List, [], ◌∷◌, ◌++◌, length, Bool, false, Result, Ok, Err, Some, None};
ghost use Rattle.hm_data.specs.declared.entry.Entry.{Entry};
ghost use Rattle.hm_data.specs.declared.step.StepOut.{StepOut};
ghost use Rattle.hm_hall.specs.Hall.{AnswersCarry, AnswersGive, AnswersTake, GetsBack, HallView};
ghost use Rattle.hm_hall.specs.Recording.{Recording, Passes, Records, behind, bytes_of, parts_of};
ghost use Rattle.hm_hall.specs.declared.fault.HallFault.{HallFault};
ghost use Rattle.hm_hall.specs.declared.fault.HallFault.TheVariants as hall_is;
ghost use Rattle.hm_hall.specs.declared.fault.Halt.{Halt};
ghost use Rattle.hm_hall.specs.declared.fault.RecordFault.{RecordFault as FaultValue};
ghost use Rattle.hm_hall.specs.declared.fault.RecordFault.TheVariants as fault_is;
ghost use Rattle.hm_hall.specs.declared.hall.Task.{Task};
ghost use Rattle.hm_hall.specs.declared.taken.Given.{Given};
ghost use Rattle.hm_hall.specs.declared.taken.Taken.{Taken};
ghost use Rattle.hm_model.specs.Laws.{is_part};

/// What recording answers is decided by the recorder and the entry, but for a fault of the log: it is that the recorder
/// was halted, where it was; else that the journal is full, where the entry passes the hard mark; else the place of the
/// entry, or that fault.
pub fn recording_is_decided()
    ensures halted { (old : Recording) (entry : Entry) (answer : Result ℕ FaultValue) (new : Recording) (why : Halt) →
        Records old entry answer new → old.halted ≡ Some why → answer ≡ Err (fault_is.Halted why) }
    ensures full { (old : Recording) (entry : Entry) (answer : Result ℕ FaultValue) (new : Recording) →
        Records old entry answer new → old.halted ≡ None → Passes old.hard old.entries entry → answer ≡ Err (fault_is.JournalFull (bytes_of old.entries)) }
    ensures recorded { (old : Recording) (entry : Entry) (answer : Result ℕ FaultValue) (new : Recording) →
        Records old entry answer new → old.halted ≡ None → (Passes old.hard old.entries entry → ⊥) →
        (answer ≡ Ok (length (behind old.entries))) ⊎ (answer ≡ Err fault_is.LogFault) }
{}

/// A journal is its base, or none, and the entries behind it, where each entry comes that is no part of a base.
pub fn parts_stand_first()
    ensures all { (entries : List Entry) → parts_of entries ++ behind entries ≡ entries }
    ensures parts { (entries : List Entry) (entry : Entry) → is_part entry ≡ false → parts_of (entries ++ entry ∷ []) ≡ parts_of entries }
    ensures behind { (entries : List Entry) (entry : Entry) → is_part entry ≡ false → behind (entries ++ entry ∷ []) ≡ behind entries ++ entry ∷ [] }
{}

/// What stopped a hall is answered by each of its calls, and the call changes nothing.
pub fn stops_are_answered_first()
    ensures take { (old new : HallView) (why : Halt) (answer : Result Task HallFault) →
        old.stopped ≡ Some why → AnswersTake old answer new → (answer ≡ Err (hall_is.Halted why)) × (new ≡ old) }
    ensures give { (old new : HallView) (why : Halt) (taken : Taken) (out : StepOut) (answer : Result Given (Taken × HallFault)) →
        old.stopped ≡ Some why → AnswersGive old taken out answer new → (answer ≡ Err (taken, hall_is.Halted why)) × (new ≡ old) }
    ensures carry { (old new : HallView) (why : Halt) (answer : Result Bool HallFault) →
        old.stopped ≡ Some why → AnswersCarry old answer new → (answer ≡ Err (hall_is.Halted why)) × (new ≡ old) }
{}

/// No call of a hall changes its sheets.
pub fn sheets_stay()
    ensures take { (old new : HallView) (answer : Result Task HallFault) → AnswersTake old answer new → new.sheets ≡ old.sheets }
    ensures give { (old new : HallView) (taken : Taken) (out : StepOut) (answer : Result Given (Taken × HallFault)) →
        AnswersGive old taken out answer new → new.sheets ≡ old.sheets }
    ensures back { (old new : HallView) (taken : Taken) → GetsBack old taken new → new.sheets ≡ old.sheets }
    ensures carry { (old new : HallView) (answer : Result Bool HallFault) → AnswersCarry old answer new → new.sheets ≡ old.sheets }
{}
