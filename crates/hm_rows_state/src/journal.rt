//! A journal with a table that is created, a split that is undone, and a server that is lost. An independent implementation wrote it.
ghost use Rattle.hm_model.specs.Base.{AreSheets};

use hm_crash::CrashHands;
use hm_data::{Entry, Sheet};
use hm_entry::decode;
use hm_judge::NotAllowed;
use hm_names::{Copied, List};
use hm_sheet::{Handler, Registry};
use hm_split::SplitHands;
use hm_state::State;
use hm_tables::TableHands;
use hm_transit::TransitHands;
use std::alloc::AllocGlobal;
use std::process::Abort;

// The entries after its start.
const JOURNAL: [&[u8]; 65] = [
    // A server comes up.
    b"\x05\x02\0h1\x94>\x01\0\0\0\0\0\0\0",
    // A table is created, cut at f and m.
    b"\x01\x01\0\0\0\0\0\0\0\x01\0\0\0\0\0\0\0\x03\x07\0default\x01\0t\x02\0\x01\0f\x01\0m",
    b"\x02\x01\0\0\0\0\0\0\0\0\0\x01\0\0\0\0\0\0\0\0",
    b"\x02\x01\0\0\0\0\0\0\0\0\0\x02\x01\0\x01\x07\0default\x01\0t\0\x01\x01\x03\x01\0\0\0\0\0\0\0\0\0\0\0\0\0",
    b"\x02\x01\0\0\0\0\0\0\0\0\x01\x03\0\0\x01\0\x1a\x01\0\0\0\0\0\0\0\0\0\0\0",
    b"\x02\x02\0\0\0\0\0\0\0\0\x02\x01\0\0\0\0\x01\x03\x01\0\0\0\0\0\0\0\0\0\0",
    b"\x04\x02\0\0\0\0\0\0\0\x06",
    b"\x02\x02\0\0\0\0\0\0\0\0\x03\x06\0\0\0\0\0\0\0\0",
    b"\x02\x01\0\0\0\0\0\0\0\0\x01\x04\0\0\x01\0\x14\x07\0default\x01\0t\x01\0\0\0\0\0\0\0\x04\0\0\0\x01\0f\x01\0m\0\0\0\0\0\0",
    b"\x02\x03\0\0\0\0\0\0\0\0\x03\0\x03\0\x02\x07\0default\x01\0t\x01\0\0\0\0\0\0\0\0\x01\x02\0\0\x01\0f\0\0\0\x02\x07\0default\x01\0t\x02\0\0\0\0\0\0\0\0\x01\x02\x01\0f\x01\0m\0\0\0\x02\x07\0default\x01\0t\x03\0\0\0\0\0\0\0\0\x01\x02\x01\0m\0\0\0\0\0\0\0\0\0\0\0",
    b"\x02\x01\0\0\0\0\0\0\0\0\0\x05\x01\0\x01\x07\0default\x01\0t\x01\x01\x03\x01\0\0\0\0\0\0\0\x01\x01\0\x01\0\0\0\0\0\0\0\0\0\0\0\0\0",
    b"\x02\x01\0\0\0\0\0\0\0\0\x01\x06\0\0\x01\0\0\x07\0default\x01\0t\x03\0\x01\0\0\0\0\0\0\0\x02\0\0\0\0\0\0\0\x03\0\0\0\0\0\0\0\0\0\0\0\0",
    b"\x02\x04\0\0\0\0\0\0\0\x01\x02\0h1\x94>\x01\0\0\0\0\0\0\0\0\x01\0\0\0\0\0\x01\x01\x01\x02\0h1\x94>\x01\0\0\0\0\0\0\0\0\0",
    b"\x02\x05\0\0\0\0\0\0\0\x01\x02\0h1\x94>\x01\0\0\0\0\0\0\0\0\x01\0\0\0\0\0\x01\x01\x01\x02\0h1\x94>\x01\0\0\0\0\0\0\0\0\0",
    b"\x02\x06\0\0\0\0\0\0\0\x01\x02\0h1\x94>\x01\0\0\0\0\0\0\0\0\x01\0\0\0\0\0\x01\x01\x01\x02\0h1\x94>\x01\0\0\0\0\0\0\0\0\0",
    b"\x02\x04\0\0\0\0\0\0\0\0\x01\x02\0\0\x01\0\x17\x07\0default\x01\0t\x01\0\0\0\0\0\0\0\x02\0h1\x94>\x01\0\0\0\0\0\0\0\0\0\0\0",
    b"\x02\x05\0\0\0\0\0\0\0\0\x01\x02\0\0\x01\0\x17\x07\0default\x01\0t\x02\0\0\0\0\0\0\0\x02\0h1\x94>\x01\0\0\0\0\0\0\0\0\0\0\0",
    b"\x02\x06\0\0\0\0\0\0\0\0\x01\x02\0\0\x01\0\x17\x07\0default\x01\0t\x03\0\0\0\0\0\0\0\x02\0h1\x94>\x01\0\0\0\0\0\0\0\0\0\0\0",
    b"\x02\x07\0\0\0\0\0\0\0\0\x02\x01\0\0\0\0\x01\0\x07\0default\x01\0t\x01\0\0\0\0\0\0\0\0\0\0",
    b"\x02\x08\0\0\0\0\0\0\0\0\x02\x01\0\0\0\0\x01\0\x07\0default\x01\0t\x02\0\0\0\0\0\0\0\0\0\0",
    b"\x02\t\0\0\0\0\0\0\0\0\x02\x01\0\0\0\0\x01\0\x07\0default\x01\0t\x03\0\0\0\0\0\0\0\0\0\0",
    b"\x04\x07\0\0\0\0\0\0\0\x01",
    b"\x02\x07\0\0\0\0\0\0\0\0\x03\x01\0\0\0\0\0\0\0\0",
    b"\x02\x04\0\0\0\0\0\0\0\0\x03\x01\0\0\0\0\0\x01\x02\x01\x02\0h1\x94>\x01\0\0\0\0\0\0\0\0\0",
    b"\x04\x08\0\0\0\0\0\0\0\x01",
    b"\x02\x08\0\0\0\0\0\0\0\0\x03\x01\0\0\0\0\0\0\0\0",
    b"\x02\x05\0\0\0\0\0\0\0\0\x03\x01\0\0\0\0\0\x01\x02\x01\x02\0h1\x94>\x01\0\0\0\0\0\0\0\0\0",
    b"\x04\t\0\0\0\0\0\0\0\x01",
    b"\x02\t\0\0\0\0\0\0\0\0\x03\x01\0\0\0\0\0\0\0\0",
    b"\x02\x06\0\0\0\0\0\0\0\0\x03\x01\0\0\0\0\0\x01\x02\x01\x02\0h1\x94>\x01\0\0\0\0\0\0\0\0\0",
    b"\x02\x01\0\0\0\0\0\0\0\0\x03\0\x01\0\x01\x07\0default\x01\0t\x01\x01\0\x01\0\0\0\0\0\0\0\x01\x01\x01\x01\0\0\0\0\0\0\0\0\0\0\0\0\0",
    // Its second region is split, of which the storage lays nothing out: two undos, and what follows them.
    b"\x01\x01\0\0\0\0\0\0\0\x02\0\0\0\0\0\0\0\x08\x07\0default\x01\0t\x02\0\0\0\0\0\0\0\x01\0h",
    b"\x02\n\0\0\0\0\0\0\0\0\0\x01\0\0\0\0\0\0\0\0",
    b"\x02\n\0\0\0\0\0\0\0\0\x01\x02\0\0\x01\0\0\x07\0default\x01\0t\x01\0\x02\0\0\0\0\0\0\0\x01\0\0\0\0",
    b"\x02\x0b\0\0\0\0\0\0\0\0\x01\x04\0\0\x01\0\x18\x07\0default\x01\0t\x02\0\0\0\0\0\0\0\x02\0h1\x94>\x01\0\0\0\0\0\0\0\0\x01\x03\x01\x02\0h1\x94>\x01\0\0\0\0\0\0\0\0\0",
    b"\x02\x0c\0\0\0\0\0\0\0\0\x02\x01\0\0\0\0\x01\x01\x07\0default\x01\0t\x02\0\0\0\0\0\0\0\0\0\0",
    b"\x04\x0c\0\0\0\0\0\0\0\x03",
    b"\x02\x0c\0\0\0\0\0\0\0\0\x03\x03\0\0\0\0\0\0\0\0",
    b"\x02\x0b\0\0\0\0\0\0\0\0\x03\x03\0\0\0\0\0\x01\x04\0\0\0",
    b"\x02\n\0\0\0\0\0\0\0\0\x01\x03\0\0\x01\0\x1a\n\0\0\0\0\0\0\0\0\0\0\0",
    b"\x02\r\0\0\0\0\0\0\0\0\x02\x01\0\0\0\0\x01\x03\n\0\0\0\0\0\0\0\0\0\0",
    b"\x04\r\0\0\0\0\0\0\0\x07",
    b"\x02\r\0\0\0\0\0\0\0\0\x04\x0c\0\0\0\0\0\0\0\0",
    b"\x03\n\0\0\0\0\0\0\0\x02\x05\0\0\0\0\0\0\0\x01\0\x1b\n\0\0\0\0\0\0\0",
    b"\x02\x0e\0\0\0\0\0\0\0\0\x02\x01\0\0\0\0\x01\x04\n\0\0\0\0\0\0\0\0\0\0",
    b"\x03\n\0\0\0\0\0\0\0\x01\x05\0\0\0\0\0\0\0\x01\0\0\x07\0default\x01\0t\x01\0\x02\0\0\0\0\0\0\0\0",
    b"\x02\x0f\0\0\0\0\0\0\0\x01\x02\0h1\x94>\x01\0\0\0\0\0\0\0\0\x01\0\0\0\0\0\x01\x01\x01\x02\0h1\x94>\x01\0\0\0\0\0\0\0\0\0",
    b"\x02\x0f\0\0\0\0\0\0\0\0\x01\x02\0\0\x01\0\x17\x07\0default\x01\0t\x02\0\0\0\0\0\0\0\x02\0h1\x94>\x01\0\0\0\0\0\0\0\0\0\0\0",
    b"\x02\x10\0\0\0\0\0\0\0\0\x02\x01\0\0\0\0\x01\0\x07\0default\x01\0t\x02\0\0\0\0\0\0\0\0\0\0",
    b"\x04\x0e\0\0\0\0\0\0\0\x08",
    b"\x02\x0e\0\0\0\0\0\0\0\0\x03\x08\0\0\0\0\0\0\0\0",
    b"\x04\x10\0\0\0\0\0\0\0\x01",
    b"\x02\x10\0\0\0\0\0\0\0\0\x03\x01\0\0\0\0\0\0\0\0",
    b"\x02\x0f\0\0\0\0\0\0\0\0\x03\x01\0\0\0\0\0\x01\x02\x01\x02\0h1\x94>\x01\0\0\0\0\0\0\0\0\0",
    // Another server comes up, the first is held to be dead, is fenced, and its regions are opened on the other.
    b"\x05\x02\0h2\x94>\x01\0\0\0\0\0\0\0",
    b"\x06\x02\0h1\x94>\x01\0\0\0\0\0\0\0",
    b"\x02\x11\0\0\0\0\0\0\0\0\x01\x01\0\0\x01\0\x19\x02\0h1\x94>\x01\0\0\0\0\0\0\0\0\0\0\0",
    b"\x02\x12\0\0\0\0\0\0\0\0\x02\x01\0\0\0\0\x01\x02\x02\0h1\x94>\x01\0\0\0\0\0\0\0\0\0\0",
    b"\x04\x12\0\0\0\0\0\0\0\x05",
    b"\x02\x12\0\0\0\0\0\0\0\0\x03\x05\0\0\0\0\0\0\0\0",
    b"\x02\x11\0\0\0\0\0\0\0\0\x01\x01\0\0\x01\0\0\x07\0default\x01\0t\x03\0\x01\0\0\0\0\0\0\0\x02\0\0\0\0\0\0\0\x03\0\0\0\0\0\0\0\0\0\0\0\0",
    b"\x02\x13\0\0\0\0\0\0\0\x01\x02\0h2\x94>\x01\0\0\0\0\0\0\0\0\x01\0\0\0\0\0\x01\x01\x01\x02\0h2\x94>\x01\0\0\0\0\0\0\0\0\0",
    b"\x02\x14\0\0\0\0\0\0\0\x01\x02\0h2\x94>\x01\0\0\0\0\0\0\0\0\x01\0\0\0\0\0\x01\x01\x01\x02\0h2\x94>\x01\0\0\0\0\0\0\0\0\0",
    b"\x02\x15\0\0\0\0\0\0\0\x01\x02\0h2\x94>\x01\0\0\0\0\0\0\0\0\x01\0\0\0\0\0\x01\x01\x01\x02\0h2\x94>\x01\0\0\0\0\0\0\0\0\0",
    b"\x02\x13\0\0\0\0\0\0\0\0\x01\x02\0\0\x01\0\x17\x07\0default\x01\0t\x01\0\0\0\0\0\0\0\x02\0h2\x94>\x01\0\0\0\0\0\0\0\0\0\0\0",
];

// All handlers.
fn handlers(rt: &(impl Abort + AllocGlobal)) -> Vec<Box<dyn Handler>> {
    let alloc = rt.alloc();
    let tables = Box::new(alloc, TableHands::new(alloc).expect(rt, "memory")).expect(rt, "memory");
    let splits = Box::new(alloc, SplitHands::new(alloc).expect(rt, "memory")).expect(rt, "memory");
    let transits = Box::new(alloc, TransitHands::new(alloc).expect(rt, "memory")).expect(
        rt, "memory",
    );
    let crashes = Box::new(alloc, CrashHands::new(alloc).expect(rt, "memory")).expect(rt, "memory");
    let handlers: [Box<dyn Handler>; 4] = [tables, splits, transits, crashes];
    Vec::from_array(alloc, handlers).expect(rt, "memory")
}

// The sheets with which a journal begins.
pub(crate) fn sheets(rt: &(impl Abort + AllocGlobal)) -> List<Sheet>
    ensures valid { AreSheets result }
{
    let Ok(registry) = Registry::new(rt.alloc(), handlers(rt)) else {
        panic!(rt; "no registry");
    };
    let sheets = registry.sheets().copy(rt.alloc()).expect(rt, "memory");
    drop(registry);
    sheets
}

// Adds an entry, if the rules allow it. Tells the rule that doesn't, or 0.
pub(crate) fn add(rt: &(impl Abort + AllocGlobal), state: &mut State, entry: &Entry) -> u8 {
    match state.allowed(rt.alloc(), entry) {
        Ok(()) => {
            let ready = state.prepare(rt.alloc(), entry).expect(rt, "memory");
            state.apply(ready);
            0
        }
        Err(NotAllowed::Rule(rule)) => rule,
        Err(_) => panic!(rt; "memory"),
    }
}

// Adds the entry that is spelled so, if the rules allow it.
pub(crate) fn add_spelled(rt: &(impl Abort + AllocGlobal), state: &mut State, bytes: &[u8]) -> u8 {
    let Ok(entry) = decode(rt.alloc(), bytes) else {
        panic!(rt; "no entry");
    };
    let rule = add(rt, state, &entry);
    drop(entry);
    rule
}

// Adds entries that are allowed.
pub(crate) fn add_all(rt: &(impl Abort + AllocGlobal), state: &mut State, entries: &[&[u8]]) {
    for bytes in entries {
        assert!(rt; add_spelled(rt, state, bytes) == 0);
    }
}

// The state of so many entries of the journal.
pub(crate) fn state_at(rt: &(impl Abort + AllocGlobal), count: usize) -> State {
    let mut state = State::start(rt.alloc(), sheets(rt)).expect(rt, "memory");
    for bytes in JOURNAL.iter().take(count.saturating_sub(1)) {
        assert!(rt; add_spelled(rt, &mut state, bytes) == 0);
    }
    state
}
