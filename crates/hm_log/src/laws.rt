//! Laws of the format.
ghost use Rattle.std.specs.Prelude.{◌≡◌, ◌<◌, List, ℕ, All};
ghost use Rattle.hm_log.specs.Format.{Reads};
ghost use Rattle.hm_log.specs.Verdict.{Verdict, Judges};

/// A file reads as at most one list of frames.
pub fn one_reading()
    ensures { (bytes : List ℕ) (frames others : List (List ℕ)) →
        Reads bytes frames → Reads bytes others → frames ≡ others }
{}

/// A file is empty, a log, no log or a log with a bad frame, and one of these only, at one place.
pub fn one_verdict()
    ensures some { (bytes : List ℕ) → All (λ byte. byte < 256) bytes →
        (verdict : Verdict) × Judges bytes verdict }
    ensures only { (bytes : List ℕ) (verdict other : Verdict) →
        Judges bytes verdict → Judges bytes other → verdict ≡ other }
{}
