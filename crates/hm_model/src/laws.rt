//! What every legal journal keeps: laws, as functions that do nothing.
ghost use Rattle.hm_model.specs.Laws.{TablesDecided, RegionsDecided, KeysDecided, KeysTied, OlderIsLegal, FrontIsLegal, BackIsCut, PushIsNewest, AllGrown, SteppersAreMade, AllBegin, NoncesFind, IdsStayWithin, NoncesActOnceInAll, UnfinishedTells};
ghost use Rattle.hm_model.specs.Apart.{OthersStay};
ghost use Rattle.hm_model.specs.Calls.{CallsAreOwn, CallsStay, ReportsFit};
ghost use Rattle.hm_model.specs.EditionLaws.{EditionsAreSheets, EditionsStay, LastIsInForce, RootsAreMadeInForce, RootsHaveEditions, SheetsStay, TreesHaveOneEdition};
ghost use Rattle.hm_model.specs.Forest.{AllForest, AllRooted, NodesStay, RootsWait};
ghost use Rattle.hm_model.specs.Forms.{StepsAreFormed, UndosAreFormed};
ghost use Rattle.hm_model.specs.GoingBack.{AllIsUndone, EditsGoBack, UndosAreLast, UndosGoBack};
ghost use Rattle.hm_model.specs.RowLaws.{KeysAreListed, RowsAreRead, RowsFit, RowsReadAlike};
ghost use Rattle.hm_model.specs.Taking.{NoneConflict, NoneOfLegalConflict};
ghost use Rattle.hm_model.specs.Touched.{StepsEnd, StepsLetGo};
ghost use Rattle.hm_model.specs.Waiting.{OpenChildrenTell, OpenChildrenChange, OpenUnderTell, OpenUnderChange};

/// The tests of tables, regions and keys tell what is equal, and so does the order of keys.
pub fn keys_are_decided()
    ensures tables { TablesDecided }
    ensures regions { RegionsDecided }
    ensures keys { KeysDecided }
    ensures ties { KeysTied }
{}

/// The older part of a legal journal is legal.
pub fn parts_are_legal()
    ensures older { OlderIsLegal }
    ensures front { FrontIsLegal }
    ensures cut { BackIsCut }
    ensures push { PushIsNewest }
{}

/// Procedures are numbered without a gap, from 1 or from behind the last number of the base; what was never made makes no
/// steps; a journal begins with its only start or with a base; what is found under a nonce was submitted under it; region ids
/// stay within their limit.
pub fn journals_grow()
    ensures grown { AllGrown }
    ensures steppers { SteppersAreMade }
    ensures begin { AllBegin }
    ensures nonces { NoncesFind }
    ensures ids { IdsStayWithin }
{}

/// A root is made in the edition in force and keeps it, and all of its tree have it; the sheets of each edition stay, and those
/// of the last are in force.
pub fn editions_stand()
    ensures made { RootsAreMadeInForce }
    ensures stay { EditionsStay }
    ensures trees { TreesHaveOneEdition }
    ensures roots { RootsHaveEditions }
    ensures sheets { EditionsAreSheets }
    ensures old { SheetsStay }
    ensures last { LastIsInForce }
{}

/// What is made stays, ancestors stand up to the root, each made before its children; whoever goes on has a parent and a
/// root that wait; only roots are aborted.
pub fn trees_stand()
    ensures stay { NodesStay }
    ensures forest { AllForest }
    ensures rooted { AllRooted }
    ensures wait { RootsWait }
{}

/// An entry leaves alone all that is told of the trees that it doesn't belong to.
pub fn others_stay()
    ensures { OthersStay }
{}

/// By a step only its procedure, the parent and the root may come to go on, and only the procedure and the root may end.
pub fn steps_touch_few()
    ensures go { StepsLetGo }
    ensures end { StepsEnd }
{}

/// How many children of a procedure and how many descendants of a root haven't ended, and what each entry changes of it.
pub fn open_are_counted()
    ensures children { OpenChildrenTell }
    ensures children_change { OpenChildrenChange }
    ensures under { OpenUnderTell }
    ensures under_change { OpenUnderChange }
{}

/// A step that makes children waits for them, one that calls awaits the answer; what undoes a step does neither.
pub fn answers_are_formed()
    ensures steps { StepsAreFormed }
    ensures undos { UndosAreFormed }
{}

/// The verb of a call is its procedure's and never changes, and a report fits it.
pub fn calls_are_own()
    ensures own { CallsAreOwn }
    ensures stay { CallsStay }
    ensures fit { ReportsFit }
{}

/// The keys of a journal are in order, and each row that a step asks for is read as it is, whatever else there is; the
/// row of its sheet that a procedure is at is a byte.
pub fn rows_are_read()
    ensures listed { KeysAreListed }
    ensures read { RowsAreRead }
    ensures alike { RowsReadAlike }
    ensures bytes { RowsFit }
{}

/// No nonce acts twice, and none is unfinished exactly where each root has ended.
pub fn roots_are_told()
    ensures nonces { NoncesActOnceInAll }
    ensures tells { UnfinishedTells }
{}

/// No two procedures that have a step and haven't ended conflict, nor do any that are taken ahead of their first step, where
/// whoever is taken was free when it was taken.
pub fn none_conflict()
    ensures legal { NoneOfLegalConflict }
    ensures taken { NoneConflict }
{}

/// The undos of a tree take back its steps from the latest on, each with its edits turned round, which lead back to what was
/// there; a failed root that has ended has taken back all, and after an undo no procedure of its tree makes a step.
pub fn undos_go_back()
    ensures order { UndosGoBack }
    ensures all { AllIsUndone }
    ensures last { UndosAreLast }
    ensures edits { EditsGoBack }
{}
