//! The state of a journal that begins with a base, by its own calls.
use crate::journal::sheets;
use crate::texts::is_told;
use hm_data::{Back, Entry, Part, Request, Row, Sheet};
use hm_judge::NotAllowed;
use hm_names::{List, Nonce, Ns, Pid};
use hm_state::State;
use std::alloc::{AllocError, AllocGlobal};
use std::process::Abort;

// What is added behind the base.
#[derive(Clone, Copy)]
enum Added {
    // A start with the sheets of the base.
    Start,
    // A part more, which comes behind the last one.
    Part,
    // The sheets of the base are adopted.
    Same,
    // Sheets are adopted by which no layout is swept when it is undone.
    Unswept,
    // A namespace is asked for.
    Submit,
}

// What is added, the rule that doesn't allow it, or 0, and what is seen then: how many entries were recorded, the last procedure's
// number, and the edition in force.
const CASES: [(Added, u8, &str); 9] = [
    (Added::Start, 1, "7 3 0"),
    (Added::Part, 18, "7 3 0"),
    (Added::Same, 19, "7 3 0"),
    (Added::Unswept, 0, "8 3 1"),
    (Added::Unswept, 19, "8 3 1"),
    (Added::Part, 18, "8 3 1"),
    (Added::Start, 1, "8 3 1"),
    (Added::Submit, 0, "9 4 1"),
    (Added::Same, 0, "10 4 2"),
];

fn namespace(rt: &(impl Abort + AllocGlobal), name: &[u8]) -> Part {
    Part::Namespace {
        ns: Ns::of(rt.alloc(), name).expect(rt, "a namespace"),
    }
}

// The base of a journal of so many entries, whose last procedure has this number, that came to nothing but its namespaces.
pub(crate) fn base(rt: &(impl Abort + AllocGlobal), entries: u64, last: Pid) -> List<Part> {
    let head = Part::Head {
        entries,
        last,
        parts: 2,
        sheets: sheets(rt),
    };
    let parts: [Part; 3] = [head, namespace(rt, b"default"), namespace(rt, b"hbase")];
    List::of(Vec::from_array(rt.alloc(), parts).expect(rt, "memory"))
}

// A sheet by which no layout is swept.
fn unswept(rt: &(impl Abort + AllocGlobal), sheet: &Sheet) -> Sheet {
    let mut rows = Vec::new(rt.alloc());
    for row in sheet.rows.as_slice() {
        let undo = if row.undo == Back::Sweep {
            Back::Nothing
        } else {
            row.undo
        };
        rows.push(Row { undo, ..*row }).expect(rt, "memory");
    }
    Sheet {
        kind: sheet.kind,
        rows: List::of(rows),
    }
}

// The sheets of the base, but that no layout is swept.
pub(crate) fn others(rt: &(impl Abort + AllocGlobal)) -> List<Sheet> {
    let own = sheets(rt);
    let mut others = Vec::new(rt.alloc());
    for sheet in own.as_slice() {
        others.push(unswept(rt, sheet)).expect(rt, "memory");
    }
    drop(own);
    List::of(others)
}

fn submission(rt: &(impl Abort + AllocGlobal)) -> Entry {
    Entry::Submit {
        nonce: Nonce {
            group: 1,
            number: 1,
        },
        request: Request::CreateNamespace {
            ns: Ns::of(rt.alloc(), b"more").expect(rt, "a namespace"),
        },
    }
}

fn entry_of(rt: &(impl Abort + AllocGlobal), added: Added) -> Entry {
    match added {
        Added::Start => Entry::Start { sheets: sheets(rt) },
        Added::Part => Entry::Base {
            part: namespace(rt, b"more"),
        },
        Added::Same => Entry::Adopt { sheets: sheets(rt) },
        Added::Unswept => Entry::Adopt { sheets: others(rt) },
        Added::Submit => submission(rt),
    }
}

// Adds an entry, if the rules allow it. Tells the rule that doesn't, or 0.
fn add_own(rt: &(impl Abort + AllocGlobal), state: &mut State, entry: Entry) -> u8 {
    match state.allowed(rt.alloc(), &entry) {
        Ok(()) => {
            let ready = state.prepare_own(rt.alloc(), entry).expect(rt, "memory");
            state.apply(ready);
            0
        }
        Err(NotAllowed::Rule(rule)) => {
            drop(entry);
            rule
        }
        Err(_) => panic!(rt; "memory"),
    }
}

fn seen(rt: &(impl Abort + AllocGlobal), state: &State) -> Result<String, AllocError> {
    let counted = state.counted();
    let last = state.last_pid();
    let edition = state.editions();
    format!(in rt.alloc(); "{counted} {last} {edition}")
}

#[test]
fn from_base_allowed_prepare_own_and_apply_behind_a_base(rt: HostRuntime) {
    let Ok(mut state) = State::from_base(rt.alloc(), base(&rt, 7, Pid(3))) else {
        panic!(rt; "no base");
    };
    for (added, rule, expected) in CASES {
        assert!(rt;
            add_own(&rt, &mut state, entry_of(&rt, added)) == rule,
            "rule {rule}"
        );
        is_told(&rt, "a case", seen(&rt, &state), expected);
    }
    drop(state);
}
