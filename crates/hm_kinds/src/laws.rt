//! The laws.
ghost use Rattle.hm_kinds.specs.Theorem.{CoversClash};

/// Who covers a row asks for what clashes with the asks of each other request that covers or reads it.
pub fn covers_clash()
    ensures { CoversClash }
{}
