//! Entries that break a rule, and what is said of them. What is expected was asked of an independent implementation.
use crate::journal::{add_all, add_spelled, state_at};
use hm_state::State;
use std::alloc::AllocGlobal;
use std::process::Abort;

// How many entries of the journal there are, what follows them, the entry that isn't allowed then, and the lowest rule that it breaks.
type Case = (usize, &'static [&'static [u8]], &'static [u8], u8);

const CASES: [Case; 53] = [
    // Another start.
    (1, &[], b"\0\0\0", 1),
    // A request that is wrong by itself; under a nonce that was used.
    (
        1,
        &[],
        b"\x01\0\0\0\0\0\0\0\0\0\0\0\0\0\0\0\0\x02\x07\0default",
        2,
    ),
    (
        3,
        &[],
        b"\x01\x01\0\0\0\0\0\0\0\x01\0\0\0\0\0\0\0\x02\x07\0default",
        2,
    ),
    // A nonce that was used, by the same request and by another.
    (
        3,
        &[],
        b"\x01\x01\0\0\0\0\0\0\0\x01\0\0\0\0\0\0\0\x03\x07\0default\x01\0t\x02\0\x01\0f\x01\0m",
        3,
    ),
    (
        33,
        &[],
        b"\x01\x01\0\0\0\0\0\0\0\x02\0\0\0\0\0\0\0\x06\x07\0default\x01\0t",
        3,
    ),
    // A step of a procedure that isn't there; of one that waits for its child, for an answer, that has ended, that has failed; with a server.
    (3, &[], b"\x02\x02\0\0\0\0\0\0\0\0\0\x01\0\0\0\0\0\0\0\0", 5),
    (6, &[], b"\x02\x01\0\0\0\0\0\0\0\0\0\x04\0\0\0\0\0\0\0\0", 5),
    (
        7,
        &[],
        b"\x02\x02\0\0\0\0\0\0\0\0\x03\x06\0\0\0\0\0\0\0\0",
        5,
    ),
    (
        32,
        &[],
        b"\x02\x01\0\0\0\0\0\0\0\0\x03\0\0\0\0\0\0\0\0\0",
        5,
    ),
    (44, &[], b"\x02\n\0\0\0\0\0\0\0\0\0\x03\0\0\0\0\0\0\0\0", 5),
    (
        1,
        &[],
        b"\x02\x01\0\0\0\0\0\0\0\x01\x02\0h1\x94>\x01\0\0\0\0\0\0\0\x03\0\0\0\0\0\0\0\0\0",
        5,
    ),
    // A step of a procedure whose table another holds; that also picks a server and answers wrongly.
    (
        34,
        &[b"\x01\0\0\0\0\0\0\0\0\0\0\0\0\0\0\0\0\x07\x07\0default\x01\0t\x02\0\0\0\0\0\0\0"],
        b"\x02\x0b\0\0\0\0\0\0\0\0\0\x01\0\0\0\0\0\0\0\0",
        6,
    ),
    (
        34,
        &[b"\x01\0\0\0\0\0\0\0\0\0\0\0\0\0\0\0\0\x07\x07\0default\x01\0t\x02\0\0\0\0\0\0\0"],
        b"\x02\x0b\0\0\0\0\0\0\0\x01\x02\0h1\x94>\x01\0\0\0\0\0\0\0\x03\0\0\0\0\0\0\0\0\0",
        6,
    ),
    // A server that is picked where none is needed; none where one is; one that isn't live; with a wrong answer.
    (
        3,
        &[],
        b"\x02\x01\0\0\0\0\0\0\0\x01\x02\0h1\x94>\x01\0\0\0\0\0\0\0\0\x01\0\0\0\0\0\0\0\0",
        7,
    ),
    (
        13,
        &[],
        b"\x02\x04\0\0\0\0\0\0\0\0\0\x01\0\0\0\0\0\x01\x01\x01\x02\0h1\x94>\x01\0\0\0\0\0\0\0\0\0",
        7,
    ),
    (
        13,
        &[],
        b"\x02\x04\0\0\0\0\0\0\0\x01\x02\0h2\x94>\x01\0\0\0\0\0\0\0\0\x01\0\0\0\0\0\x01\x01\x01\x02\0h2\x94>\x01\0\0\0\0\0\0\0\0\0",
        7,
    ),
    (
        3,
        &[],
        b"\x02\x01\0\0\0\0\0\0\0\x01\x02\0h1\x94>\x01\0\0\0\0\0\0\0\x03\0\0\0\0\0\0\0\0\0",
        7,
    ),
    // Another answer, another row, edits, no place.
    (3, &[], b"\x02\x01\0\0\0\0\0\0\0\0\x03\0\0\0\0\0\0\0\0\0", 8),
    (3, &[], b"\x02\x01\0\0\0\0\0\0\0\0\0\x02\0\0\0\0\0\0\0\0", 8),
    (
        3,
        &[],
        b"\x02\x01\0\0\0\0\0\0\0\0\0\x01\x01\0\x01\x07\0default\x01\0t\0\x01\x01\x03\x01\0\0\0\0\0\0\0\0\0\0\0\0\0",
        8,
    ),
    (
        13,
        &[],
        b"\x02\x04\0\0\0\0\0\0\0\x01\x02\0h1\x94>\x01\0\0\0\0\0\0\0\0\x01\0\0\0\0\0\0\0\0",
        8,
    ),
    (
        8,
        &[],
        b"\x02\x02\0\0\0\0\0\0\0\0\x03\x01\0\0\0\0\0\0\0\0",
        8,
    ),
    // An undo of what hasn't failed; of a step that isn't the latest; of a procedure that isn't the one; doing something else, too.
    (4, &[], b"\x03\x01\0\0\0\0\0\0\0\0\x05\0\0\0\0\0\0\0\0\0", 9),
    (
        44,
        &[],
        b"\x03\n\0\0\0\0\0\0\0\x01\x05\0\0\0\0\0\0\0\x01\0\0\x07\0default\x01\0t\x01\0\x02\0\0\0\0\0\0\0\0",
        9,
    ),
    (
        44,
        &[],
        b"\x03\x0b\0\0\0\0\0\0\0\x02\x05\0\0\0\0\0\0\0\x01\0\x1b\n\0\0\0\0\0\0\0",
        9,
    ),
    (
        45,
        &[],
        b"\x03\n\0\0\0\0\0\0\0\x02\x05\0\0\0\0\0\0\0\x01\0\x1b\n\0\0\0\0\0\0\0",
        9,
    ),
    (44, &[], b"\x03\n\0\0\0\0\0\0\0\0\x05\0\0\0\0\0\0\0\0\0", 9),
    // An undo without its follower, with another, with edits.
    (
        44,
        &[],
        b"\x03\n\0\0\0\0\0\0\0\x02\x05\0\0\0\0\0\0\0\0\0",
        10,
    ),
    (
        44,
        &[],
        b"\x03\n\0\0\0\0\0\0\0\x02\x05\0\0\0\0\0\0\0\x01\0\x1b\t\0\0\0\0\0\0\0",
        10,
    ),
    (
        45,
        &[],
        b"\x03\n\0\0\0\0\0\0\0\x01\x05\0\x01\0\x01\x07\0default\x01\0t\0\0\0\0\0\0\x01\0\0\x07\0default\x01\0t\x01\0\x02\0\0\0\0\0\0\0\0",
        10,
    ),
    // A report of what never called; of a call that has one, that has ended, that isn't there; with an answer that doesn't fit.
    (4, &[], b"\x04\x01\0\0\0\0\0\0\0\x06", 11),
    (8, &[], b"\x04\x02\0\0\0\0\0\0\0\x06", 11),
    (9, &[], b"\x04\x02\0\0\0\0\0\0\0\x07", 11),
    (9, &[], b"\x04\x03\0\0\0\0\0\0\0\0", 11),
    (8, &[], b"\x04\x02\0\0\0\0\0\0\0\x01", 11),
    // A report that doesn't fit its call.
    (7, &[], b"\x04\x02\0\0\0\0\0\0\0\x01", 12),
    (20, &[], b"\x04\x07\0\0\0\0\0\0\0\x03", 12),
    (37, &[], b"\x04\x0c\0\0\0\0\0\0\0\x01", 12),
    (46, &[], b"\x04\x0e\0\0\0\0\0\0\0\x06", 12),
    (59, &[], b"\x04\x12\0\0\0\0\0\0\0\x03", 12),
    // A server that is live, or came up before.
    (2, &[], b"\x05\x02\0h1\x94>\x01\0\0\0\0\0\0\0", 13),
    (57, &[], b"\x05\x02\0h1\x94>\x01\0\0\0\0\0\0\0", 13),
    // A newer one where the older is live.
    (2, &[], b"\x05\x02\0h1\x94>\x02\0\0\0\0\0\0\0", 14),
    // A server that never came up, or is down.
    (1, &[], b"\x06\x02\0h1\x94>\x01\0\0\0\0\0\0\0", 15),
    (57, &[], b"\x06\x02\0h1\x94>\x01\0\0\0\0\0\0\0", 15),
    // An abort of what isn't there, has ended, has failed, was aborted; of a child, whose row is after the point.
    (1, &[], b"\x07\x01\0\0\0\0\0\0\0", 16),
    (32, &[], b"\x07\x01\0\0\0\0\0\0\0", 16),
    (44, &[], b"\x07\n\0\0\0\0\0\0\0", 16),
    (
        5,
        &[b"\x07\x01\0\0\0\0\0\0\0"],
        b"\x07\x01\0\0\0\0\0\0\0",
        16,
    ),
    (14, &[], b"\x07\x04\0\0\0\0\0\0\0", 16),
    // An abort after the point.
    (12, &[], b"\x07\x01\0\0\0\0\0\0\0", 17),
    (58, &[], b"\x07\x11\0\0\0\0\0\0\0", 17),
    (51, &[], b"\x07\x0f\0\0\0\0\0\0\0", 17),
];

// The rule that the last entry of a case breaks.
fn broken(rt: &(impl Abort + AllocGlobal), case: &Case) -> u8 {
    let (count, more, entry, _) = case;
    let mut state = state_at(rt, *count);
    add_all(rt, &mut state, more);
    let rule = add_spelled(rt, &mut state, entry);
    drop(state);
    rule
}

#[test]
fn allowed_names_the_lowest_rule_that_is_broken(rt: HostRuntime) {
    for case in &CASES {
        let (count, _, _, expected) = case;
        let rule = broken(&rt, case);
        assert!(rt; rule == *expected, "{rule} for {expected} behind {count}");
    }
}

// A namespace, under a nonce.
const NAMED: &[u8] = b"\x01\x01\0\0\0\0\0\0\0\x01\0\0\0\0\0\0\0\x01\x04\0shop";

// A table of 256 regions under no nonce, but for the keys that cut it.
const WIDE: &[u8] = b"\x01\0\0\0\0\0\0\0\0\0\0\0\0\0\0\0\0\x03\x07\0default\x01\0u\xff\0";

// What is asked for where all numbers of the table are drawn, and the lowest rule that it breaks, or 0.
const DRAWN: [(&[u8], u8); 8] = [
    // A create, a split, a merge.
    (
        b"\x01\0\0\0\0\0\0\0\0\0\0\0\0\0\0\0\0\x03\x07\0default\x01\0u\0\0",
        4,
    ),
    (
        b"\x01\0\0\0\0\0\0\0\0\0\0\0\0\0\0\0\0\x08\x07\0default\x01\0u\x01\0\0\0\0\0\0\0\x01\0m",
        4,
    ),
    (
        b"\x01\0\0\0\0\0\0\0\0\0\0\0\0\0\0\0\0\t\x02\0\x07\0default\x01\0u\x01\0\0\0\0\0\0\0\x07\0default\x01\0u\x02\0\0\0\0\0\0\0",
        4,
    ),
    // Under a nonce that was used; at the empty key.
    (
        b"\x01\x01\0\0\0\0\0\0\0\x01\0\0\0\0\0\0\0\x03\x07\0default\x01\0u\0\0",
        3,
    ),
    (
        b"\x01\0\0\0\0\0\0\0\0\0\0\0\0\0\0\0\0\x08\x07\0default\x01\0u\x01\0\0\0\0\0\0\0\0\0",
        2,
    ),
    // What draws none, and another table.
    (
        b"\x01\0\0\0\0\0\0\0\0\0\0\0\0\0\0\0\0\x07\x07\0default\x01\0u\x02\0\0\0\0\0\0\0",
        0,
    ),
    (
        b"\x01\0\0\0\0\0\0\0\0\0\0\0\0\0\0\0\0\n\x07\0default\x01\0u\x01\0\0\0\0\0\0\0\0",
        0,
    ),
    (
        b"\x01\0\0\0\0\0\0\0\0\0\0\0\0\0\0\0\0\x03\x07\0default\x01\0v\0\0",
        0,
    ),
];

// The table, cut at each key of one byte but the lowest.
fn wide(rt: &(impl Abort + AllocGlobal)) -> Vec<u8> {
    let mut entry = WIDE.to_vec(rt.alloc()).expect(rt, "memory");
    for key in 1..=255 {
        entry.extend_from_slice(&[1, 0, key]).expect(rt, "memory");
    }
    entry
}

// Asks for the table so often that all its numbers are drawn.
fn draw_all(rt: &(impl Abort + AllocGlobal), state: &mut State) {
    let entry = wide(rt);
    for _ in 0..16 {
        assert!(rt; add_spelled(rt, state, entry.as_slice()) == 0);
    }
    drop(entry);
}

// Compares what the rules say of what is asked for then.
fn judges_drawn(rt: &(impl Abort + AllocGlobal), state: &mut State) {
    for (entry, expected) in &DRAWN {
        let rule = add_spelled(rt, state, entry);
        assert!(rt; rule == *expected, "{rule} for {expected}");
    }
}

#[test]
fn allowed_draws_4096_numbers_for_a_table(rt: HostRuntime) {
    let mut state = state_at(&rt, 1);
    add_all(&rt, &mut state, &[NAMED]);
    draw_all(&rt, &mut state);
    judges_drawn(&rt, &mut state);
    drop(state);
}
