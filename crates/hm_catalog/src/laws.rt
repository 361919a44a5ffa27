//! How the rows of a catalog follow those of a journal: laws, as functions that do nothing.
ghost use Rattle.hm_catalog.specs.Laws.{DeedsTell, EntriesLead, RowsAreAsked, RowsTell, StepsLead, UndosLead};

/// Where the rows are those of a journal's catalog, the edits of an entry lead to those of the longer journal's, and so does a
/// part of a base. Each other entry leaves them.
pub fn edits_lead()
    ensures steps { StepsLead }
    ensures undos { UndosLead }
    ensures entries { EntriesLead }
{}

/// The rows of a journal's catalog tell it: each row, the rows that are asked for, and deeds.
pub fn rows_tell()
    ensures rows { RowsTell }
    ensures asked { RowsAreAsked }
    ensures deeds { DeedsTell }
{}
