//! What judging tells: laws, as functions that do nothing.
ghost use Rattle.hm_judge.specs.Fresh.{FreshStepsFollow, FreshUndosFollow};
ghost use Rattle.hm_judge.specs.Laws.{CandidatesAreThere, CandidatesFit, EvaluatedStepsFollow, EvaluatedUndosFollow};

/// Where all rules hold that are judged without memory, and the entry is what its evaluation answered, it may follow.
pub fn evaluated_may_follow()
    ensures steps { EvaluatedStepsFollow }
    ensures undos { EvaluatedUndosFollow }
{}

/// What a handler answered to an input that is its procedure's still may follow: a step, or what undoes one.
pub fn fresh_answers_follow()
    ensures steps { FreshStepsFollow }
    ensures undos { FreshUndosFollow }
{}

/// The server that is picked for a procedure's next step fits, where one that is wanted on the first try isn't the one at
/// which the region just failed to open; and one is picked where one is needed and some server is live.
pub fn candidates_fit()
    ensures fit { CandidatesFit }
    ensures there { CandidatesAreThere }
{}
