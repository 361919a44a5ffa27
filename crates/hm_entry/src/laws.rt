//! What holds of every entry, as functions that do nothing: each contract is a law.
ghost use Rattle.std.specs.Prelude.{◌≡◌, Ok};
ghost use Rattle.hm_data.specs.declared.entry.Entry.{Entry};
ghost use Rattle.hm_entry.specs.Fits.{EntryFits};
ghost use Rattle.hm_entry.specs.Reading.{all_of};
ghost use Rattle.hm_entry.specs.Spelling.{entry};

/// No two entries have one spelling.
pub fn one_spelling()
    ensures { (a b : Entry) → EntryFits a → EntryFits b → entry a ≡ entry b → a ≡ b }
{}

/// What is spelled is read again.
pub fn reads_back()
    ensures { (e : Entry) → EntryFits e → all_of (entry e) ≡ Ok e }
{}
