//! The state of a journal, by its own calls.
use crate::journal::{add, sheets};
use crate::texts::is_told;
use hm_data::{Answer, Entry, Request, StepOut, Told};
use hm_names::{List, Nonce, Ns, Pid};
use hm_state::State;
use std::alloc::{AllocError, AllocGlobal, Global};
use std::process::Abort;

// How many entries and procedures there are, whose the submission's nonce is, and what its next step sees: the kind and the
// row, and how many rows of the catalog.
const STARTED: &str = "1 0 None";

const ASKED: &str = "2 1 Some(Pid(1)) 1 0 0";

const STEPPED: &str = "3 1 Some(Pid(1)) 1 1 0";

// What is added: the submission, or a step of its procedure that has this answer and does nothing else. The rule that doesn't
// allow that, or 0, and what is seen after it.
const CASES: [(Option<Answer>, u8, &str); 5] = [
    (Some(Answer::More(1)), 5, STARTED),
    (None, 0, ASKED),
    (None, 3, ASKED),
    (Some(Answer::Done(Told::Nothing)), 8, ASKED),
    (Some(Answer::More(1)), 0, STEPPED),
];

// The submission of a namespace.
fn submission(rt: &(impl Abort + AllocGlobal)) -> Entry {
    Entry::Submit {
        nonce: Nonce {
            group: 1,
            number: 1,
        },
        request: Request::CreateNamespace {
            ns: Ns::of(rt.alloc(), b"more").expect(rt, "a namespace"),
        },
    }
}

fn step(alloc: Global, answer: Answer) -> Entry {
    let out = StepOut {
        answer,
        edits: List::of(Vec::new(alloc)),
        children: List::of(Vec::new(alloc)),
        call: None,
        place: None,
        followers: List::of(Vec::new(alloc)),
    };
    Entry::Step {
        pid: Pid(1),
        pick: None,
        out,
    }
}

fn entry_of(rt: &(impl Abort + AllocGlobal), answer: Option<Answer>) -> Entry {
    match answer {
        Some(answer) => step(rt.alloc(), answer),
        None => submission(rt),
    }
}

// Adds what a case says.
fn add_case(rt: &(impl Abort + AllocGlobal), state: &mut State, answer: Option<Answer>) -> u8 {
    let entry = entry_of(rt, answer);
    let rule = add(rt, state, &entry);
    drop(entry);
    rule
}

fn put_input(alloc: Global, state: &State, out: &mut String) -> Result<(), AllocError> {
    if state.find(Pid(1)).is_none() {
        return Ok(());
    }
    let at = state.step_in(alloc, Pid(1), None)?;
    let rows = at.rows.as_slice().len();
    let put = write!(out, " {} {} {rows}", at.kind, at.row);
    drop(at);
    put
}

fn seen(rt: &(impl Abort + AllocGlobal), state: &State) -> Result<String, AllocError> {
    let nonce = Nonce {
        group: 1,
        number: 1,
    };
    let counted = state.counted();
    let last = state.last_pid();
    let made = state.by_nonce(&nonce);
    let mut text = String::new(rt.alloc());
    write!(text, "{counted} {last} {made:?}").expect(rt, "memory");
    put_input(rt.alloc(), state, &mut text).expect(rt, "memory");
    Ok(text)
}

#[test]
fn start_allowed_prepare_and_step_in_of_a_request(rt: HostRuntime) {
    let mut state = State::start(rt.alloc(), sheets(&rt)).expect(&rt, "memory");
    is_told(&rt, "the start", seen(&rt, &state), STARTED);
    for (answer, rule, expected) in CASES {
        assert!(rt; add_case(&rt, &mut state, answer) == rule, "rule {rule}");
        is_told(&rt, "a case", seen(&rt, &state), expected);
    }
    drop(state);
}
