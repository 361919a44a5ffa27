//! Laws of the definitions that the contracts cite.
ghost use Rattle.std.specs.Prelude.{◌≡◌, ◌⊎◌, ℕ, length, Bool, Option, Result, Ok, Err, Some, None};
ghost use Rattle.hm_data.specs.declared.step.StepOut.{StepOut};
ghost use Rattle.hm_hall.specs.declared.fault.HallFault.{HallFault};
ghost use Rattle.hm_hall.specs.declared.fault.HallFault.TheVariants as hall_is;
ghost use Rattle.hm_hall.specs.declared.fault.Halt.{Halt};
ghost use Rattle.hm_hall.specs.declared.fault.Halt.TheVariants as halt_is;
ghost use Rattle.hm_hall.specs.declared.fault.RecordFault.{RecordFault as FaultValue};
ghost use Rattle.hm_hall.specs.declared.fault.RecordFault.TheVariants as fault_is;
ghost use Rattle.hm_hall.specs.declared.taken.Given.{Given};
ghost use Rattle.hm_hall.specs.declared.taken.Taken.{Taken};
ghost use Rattle.hm_lend.specs.Hall.{AnswersCarry, AnswersGive, HallView, TakingStopsFirst};
ghost use Rattle.hm_lend.specs.Outs.{OutView};
ghost use Rattle.hm_lend.specs.Recording.{Recording, Backs, HasNone, Lends, own_of};

use crate::hall::Hall;

/// A log is lent exactly where there is something to lend, and goes out with all that was recorded.
pub fn lending_is_decided<T>()
    ensures none { (terms : T.row.Denot) (old : Recording) (answer : Option (OutView T.row.Denot)) (new : Recording) →
        Lends terms old answer new → HasNone old → (answer ≡ None) × (new ≡ old) }
    ensures some { (terms : T.row.Denot) (old : Recording) (answer : Option (OutView T.row.Denot)) (new : Recording) →
        Lends terms old answer new → (HasNone old → ⊥) → (out : OutView T.row.Denot) × (answer ≡ Some out) × (out.list ≡ own_of old) × (new.out ≡ Some (length (own_of old))) × (new.next ≡ None) }
{}

/// Where a log comes back, it is in again, and what was recorded since stays. All that it went out with is durable, or
/// the recorder is halted by the log.
pub fn back_is_decided<T>()
    ensures { (old : Recording) (out : OutView T.row.Denot) (answer : Result ℕ FaultValue) (new : Recording) →
        Backs old out answer new → (new.out ≡ None) × (new.entries ≡ old.entries)
        × ((answer ≡ Ok (length out.list)) × (new.durable ≡ length out.list) × (new.halted ≡ old.halted) ⊎ ((answer ≡ Err fault_is.LogFault) × (new.durable ≡ old.durable) × (new.halted ≡ Some halt_is.LogFault))) }
{}

/// What stopped a hall is answered by each call that hands out or records, and the call changes nothing.
pub fn stops_are_answered_first<H: Hall>()
    ensures take { TakingStopsFirst H.can_go }
    ensures give { (old new : HallView) (why : Halt) (taken : Taken) (out : StepOut) (answer : Result Given (Taken × HallFault)) →
        old.stopped ≡ Some why → AnswersGive old taken out answer new → (answer ≡ Err (taken, hall_is.Halted why)) × (new ≡ old) }
    ensures carry { (old new : HallView) (why : Halt) (answer : Result Bool HallFault) →
        old.stopped ≡ Some why → AnswersCarry old answer new → (answer ≡ Err (hall_is.Halted why)) × (new ≡ old) }
{}
