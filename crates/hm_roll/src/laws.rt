//! What holds of every image, as a function that does nothing: its contract is a law.
ghost use Rattle.std.specs.Prelude.{◌≡◌, List, ℕ};
ghost use Rattle.hm_data.specs.declared.part.Part.{Part};
ghost use Rattle.hm_roll.specs.Parts.{Spells};

/// Frames spell at most one list of parts.
pub fn one_image()
    ensures { (frames : List (List ℕ)) (parts others : List Part) →
        Spells frames parts → Spells frames others → parts ≡ others }
{}
