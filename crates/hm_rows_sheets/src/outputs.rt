//! What a step of a case answers and does, read from its text.
use crate::inputs::last_place;
use crate::names::first_word;
use crate::parts::{alone, child, edit, gaps, place, verb};
use crate::words::{cause, small, told};
use hm_data::{Answer, Child, Edit, Place, StepOut, Verb};
use hm_names::List;
use std::alloc::{AllocGlobal, Global};
use std::process::Abort;

// What was read so far of what a step does.
#[derive(Drop)]
struct Done {
    answer: Option<Answer>,
    edits: Vec<Edit>,
    children: Vec<Child>,
    calls: Vec<Verb>,
    places: Vec<Place>,
    followers: Vec<Child>,
}

fn answer(rt: &impl Abort, kind: &str, word: &str) -> Answer {
    match kind {
        "more" => Answer::More(small(rt, word)),
        "wait" => Answer::Wait(small(rt, word)),
        "await" => Answer::Await(small(rt, word)),
        "done" => Answer::Done(told(word).expect(rt, "what is told")),
        "fail" => Answer::Fail(cause(word).expect(rt, "a cause")),
        _ => {
            assert!(rt; kind == "undone");
            Answer::Undone
        }
    }
}

// Rows of adjacent live regions that are added, or removed.
fn push_gaps(rt: &(impl Abort + AllocGlobal), edits: &mut Vec<Edit>, words: &str, adds: bool) {
    for row in gaps(rt, words) {
        edits.push(alone(row, adds)).expect(rt, "memory");
    }
}

impl Done {
    fn new(alloc: Global) -> Done {
        Done {
            answer: None,
            edits: Vec::new(alloc),
            children: Vec::new(alloc),
            calls: Vec::new(alloc),
            places: Vec::new(alloc),
            followers: Vec::new(alloc),
        }
    }

    fn take_edit(&mut self, rt: &(impl Abort + AllocGlobal), kind: &str, words: &str) {
        match kind {
            "add" | "drop" | "set" => self.edits.push(edit(rt, kind, words)).expect(rt, "memory"),
            "adds" => push_gaps(rt, &mut self.edits, words, true),
            "drops" => push_gaps(rt, &mut self.edits, words, false),
            _ => self.answer = Some(answer(rt, kind, words)),
        }
    }

    fn take(&mut self, rt: &(impl Abort + AllocGlobal), item: &str) {
        let (kind, words) = first_word(item);
        match kind {
            "child" => self.children.push(child(rt, words)).expect(rt, "memory"),
            "call" => self.calls.push(verb(rt, words)).expect(rt, "memory"),
            "place" => self.places.push(place(rt, words)).expect(rt, "memory"),
            "follower" => self.followers.push(child(rt, words)).expect(rt, "memory"),
            _ => self.take_edit(rt, kind, words),
        }
    }
}

fn last_call(mut calls: Vec<Verb>) -> Option<Verb> {
    let call = calls.pop();
    drop(calls);
    call
}

// What the step does of which that was read.
fn done_by(rt: &impl Abort, done: Done) -> StepOut {
    let Done {
        answer,
        edits,
        children,
        calls,
        places,
        followers,
    } = done;
    StepOut {
        answer: answer.expect(rt, "an answer"),
        edits: List::of(edits),
        children: List::of(children),
        call: last_call(calls),
        place: last_place(places),
        followers: List::of(followers),
    }
}

/// What a step answers and does: items, each after a semicolon.
pub fn output(rt: &(impl Abort + AllocGlobal), text: &str) -> StepOut {
    let mut done = Done::new(rt.alloc());
    for item in text.split("; ") {
        done.take(rt, item);
    }
    done_by(rt, done)
}
