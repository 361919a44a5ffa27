//! The laws.
ghost use Rattle.hm_rebase.specs.Alike.{AlikeAllow, AlikePlaces, AlikeStay, ForgottenAreRowless};
ghost use Rattle.hm_rebase.specs.Rebased.{AlikeImages, AlikeUnderWay, DownAreFenced, ImagesAreBases, OpenAreServed, ParentsAreFew, RebasedAreAlike, TablesAreSteady};

/// Journals that read alike allow the same next entries, parts of a base aside, read alike behind each, and have as many unfinished
/// procedures. Regions with a row have the same place in both: one that a base has no row of, though its id was drawn before, never
/// gets one.
pub fn alike_go_on()
    ensures allow { AlikeAllow }
    ensures stay { AlikeStay }
    ensures under_way { AlikeUnderWay }
    ensures placed { AlikePlaces }
    ensures rowless { ForgottenAreRowless }
{}

/// Where nothing is unfinished, servers that went down are fenced, what is open is open at a live one, tables are enabled or
/// disabled in a namespace that is there, and regions have ten parents at most.
pub fn settled_stand()
    ensures fenced { DownAreFenced }
    ensures served { OpenAreServed }
    ensures steady { TablesAreSteady }
    ensures few { ParentsAreFew }
{}

/// The image of a journal is a whole base that reads as the journal does, unless it is refused.
pub fn images_are_bases()
    ensures { ImagesAreBases }
{}

/// Journals that read alike have the same image, and where one may be replaced by it, so may the other.
pub fn alike_have_one_image()
    ensures { AlikeImages }
{}

/// A journal whose first entries are replaced by their image is legal and reads as before.
pub fn rebased_are_alike()
    ensures { RebasedAreAlike }
{}
