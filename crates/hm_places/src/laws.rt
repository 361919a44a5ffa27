//! What places and servers say of a journal: laws, as functions that do nothing.
ghost use Rattle.hm_places.specs.Laws.{AllStandingsTell, EntriesPlace, EntriesStand, FencedCameUp, PlacesTell};

/// Where the places are those of a journal's regions, the one that an entry gives leads to those of the longer journal's; and
/// they tell where each region is, which are at a server, and how many.
pub fn places_follow()
    ensures entries { EntriesPlace }
    ensures tell { PlacesTell }
{}

/// Where the servers are those of a legal journal, an entry that brings one up or down, shows one fenced or tells one as a part
/// of a base leads to those of the longer journal; and they tell which came up, are live and are fenced. Who is fenced came up.
pub fn servers_follow()
    ensures entries { EntriesStand }
    ensures tell { AllStandingsTell }
    ensures came { FencedCameUp }
{}
