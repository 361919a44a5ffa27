//! How a lock book stands to a journal: laws, as functions that do nothing.
ghost use Rattle.hm_locks.specs.Laws.{ClashIsConflict, FreeIsFree};

/// Two rows that say what a journal says of their procedures clash exactly where the procedures conflict.
pub fn clashes_are_conflicts()
    ensures { ClashIsConflict }
{}

/// In a book that says what a journal says a procedure is free exactly where it conflicts with none that holds.
pub fn free_in_book_is_free()
    ensures { FreeIsFree }
{}
