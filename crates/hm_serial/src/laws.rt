//! The laws.
ghost use Rattle.hm_serial.specs.Theorem.{CatalogIsSerial, SettledCatalogIsSerial, DeedsApply, EditsAreCovered, FailureLeavesAll, UndosTell};

/// On every key that no unfinished procedure with a step covers, the catalog is that of the deeds.
pub fn catalog_is_serial()
    ensures { CatalogIsSerial }
{}

/// Where no root is unfinished, the whole catalog is that of the deeds.
pub fn settled_catalog_is_serial()
    ensures { SettledCatalogIsSerial }
{}

/// A root that ends well has a deed, and no cause stands against it.
pub fn deeds_apply()
    ensures { DeedsApply }
{}

/// A tree edits no key but those that its root covers.
pub fn edits_are_covered()
    ensures { EditsAreCovered }
{}

/// A failed root leaves each key that it covers, and so each that its tree edited, as it was before its first step.
pub fn failure_leaves_all()
    ensures { FailureLeavesAll }
{}

/// The edits of an undo tell the rows that they find.
pub fn undos_tell()
    ensures { UndosTell }
{}
