//! The laws.
ghost use Rattle.hm_ids.specs.Drawn.{RegionIdsAreDrawn};
ghost use Rattle.hm_ids.specs.Ids.{IdsAreNamed, NoneAskForZero};

/// A region's row has an id that its table has drawn, and ids are drawn from 1 on.
pub fn region_ids_are_drawn()
    ensures { RegionIdsAreDrawn }
{}

/// Where requests name regions by ids from 1 on, all procedures do, and the first id that one draws or adds is below 2^32.
/// There no entry asks for a transit of the region number 0.
pub fn ids_are_named()
    ensures procedures { IdsAreNamed }
    ensures none { NoneAskForZero }
{}
