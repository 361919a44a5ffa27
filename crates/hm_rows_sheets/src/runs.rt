//! Registries: which handlers make one, and which sheets it lists.
ghost use Rattle.std.specs.Prelude.{◌≡◌, ◌≢◌, ℕ, IfOk, None};
ghost use Rattle.hm_sheet.specs.Registry.{IsRegistry, sheets_at};

use crate::checks::LAYOUT_FIRST;
use crate::spent::Spent;
use hm_crash::CrashHands;
use hm_data::Sheet;
use hm_names::List;
use hm_sheet::{Handler, Registry, RegistryFault, Valid, all_kinds, own_sheet};
use hm_split::SplitHands;
use hm_tables::TableHands;
use hm_transit::TransitHands;
use std::alloc::{AllocError, AllocGlobal};
use std::process::Abort;

// The sheet of splits that lays out before it closes the parent.
fn layout_first(rt: &(impl Abort + AllocGlobal)) -> Valid {
    let rows = List::of(Vec::from_slice(rt.alloc(), &LAYOUT_FIRST).expect(rt, "memory"));
    match Valid::new(Sheet { kind: 8, rows }) {
        Ok(valid) => valid,
        Err(back) => {
            drop(back);
            panic!(rt; "a valid sheet");
        }
    }
}

// The handler of tables, splits, transits or crashes, by its letter. There are two more of splits: one that is spent, and one
// that is spent and lays out first.
fn handler(rt: &(impl Abort + AllocGlobal), letter: char) -> Result<Box<dyn Handler>, AllocError> {
    let alloc = rt.alloc();
    match letter {
        't' => Ok(Box::new(alloc, TableHands::new(alloc)?)?),
        's' => Ok(Box::new(alloc, SplitHands::new(alloc)?)?),
        'n' => Ok(Box::new(alloc, Spent::new(alloc, own_sheet(alloc, 8)?)?)?),
        'l' => Ok(Box::new(alloc, Spent::new(alloc, layout_first(rt))?)?),
        'r' => Ok(Box::new(alloc, TransitHands::new(alloc)?)?),
        _ => Ok(Box::new(alloc, CrashHands::new(alloc)?)?),
    }
}

/// The registry of the handlers of these letters, or why they make none.
pub fn registry(rt: &(impl Abort + AllocGlobal), letters: &str) -> Result<Registry, RegistryFault>
    ensures lists { IfOk result (λ registry. IsRegistry ⟦<dyn Handler as Handler>⟧ registry) }
    ensures learnt { IfOk result (λ registry. (edition : ℕ) → edition ≢ 0 → sheets_at registry edition ≡ None) }
{
    let mut handlers: Vec<Box<dyn Handler>> = Vec::new(rt.alloc());
    for letter in letters.chars() {
        let handler = handler(rt, letter).expect(rt, "memory");
        handlers.push(handler).expect(rt, "memory");
    }
    Registry::new(rt.alloc(), handlers)
}

// Why the handlers of these letters make no registry.
fn fault_of(rt: &(impl Abort + AllocGlobal), letters: &str) -> Option<RegistryFault> {
    match registry(rt, letters) {
        Ok(registry) => {
            drop(registry);
            None
        }
        Err(fault) => Some(fault),
    }
}

const CASES: [(&str, Option<RegistryFault>); 10] = [
    ("", Some(RegistryFault::Missing(1))),
    ("src", Some(RegistryFault::Missing(1))),
    ("trc", Some(RegistryFault::Missing(8))),
    ("tsc", Some(RegistryFault::Missing(10))),
    ("tsr", Some(RegistryFault::Missing(11))),
    ("tt", Some(RegistryFault::Twice(1))),
    ("sstrc", Some(RegistryFault::Twice(8))),
    ("crtsc", Some(RegistryFault::Twice(11))),
    ("tsrc", None),
    ("crst", None),
];

#[test]
fn new_wants_each_kind_once(rt: HostRuntime) {
    for (letters, fault) in CASES {
        assert!(rt; fault_of(&rt, letters) == fault, "{letters}");
    }
}

// Whether the sheets are of all kinds, in their order.
fn are_all(rt: &(impl Abort + AllocGlobal), sheets: &[Sheet]) -> bool {
    let mut kinds = Vec::new(rt.alloc());
    for sheet in sheets {
        kinds.push(sheet.kind).expect(rt, "memory");
    }
    let all = kinds.as_slice() == all_kinds();
    drop(kinds);
    all
}

#[test]
fn sheets_are_of_all_kinds_in_their_order(rt: HostRuntime) {
    let registry = registry(&rt, "crst").expect(&rt, "a registry");
    let all = are_all(&rt, registry.sheets().as_slice());
    drop(registry);
    assert!(rt; all);
}
