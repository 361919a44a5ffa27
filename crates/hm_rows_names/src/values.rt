//! The numbers of plain values.
use hm_data::{Act, Back, Cause, Goal, RegionState, Status, TableState, Told};
use hm_names::{NameFault, parse_decimal};
use std::alloc::AllocError;
use std::fmt::Debug;

// Puts a value and its number, as an option of both is written.
fn put_some<T: Debug>(value: &T, number: u8, out: &mut String) -> Result<(), AllocError> {
    write!(out, "Some(({value:?}, {number}))")
}

fn put_none(out: &mut String) -> Result<(), AllocError> {
    out.push_str("None")
}

// Puts the value of a number among those of rows, and its number.
fn put_of_row(kind: &str, number: u8, out: &mut String) -> Result<(), AllocError> {
    match kind {
        "act" => match Act::of(number) {
            Some(act) => put_some(&act, act.number(), out),
            None => put_none(out),
        },
        "back" => match Back::of(number) {
            Some(back) => put_some(&back, back.number(), out),
            None => put_none(out),
        },
        "cause" => match Cause::of(number) {
            Some(cause) => put_some(&cause, cause.number(), out),
            None => put_none(out),
        },
        _ => match Told::of(number) {
            Some(told) => put_some(&told, told.number(), out),
            None => put_none(out),
        },
    }
}

// Puts the value of a number among states and goals, and its number.
fn put_of_state(kind: &str, number: u8, out: &mut String) -> Result<(), AllocError> {
    match kind {
        "table" => match TableState::of(number) {
            Some(state) => put_some(&state, state.number(), out),
            None => put_none(out),
        },
        "region" => match RegionState::of(number) {
            Some(state) => put_some(&state, state.number(), out),
            None => put_none(out),
        },
        "status" => match Status::of(number) {
            Some(status) => put_some(&status, status.number(), out),
            None => put_none(out),
        },
        _ => match Goal::of(number) {
            Some(goal) => put_some(&goal, goal.number(), out),
            None => put_none(out),
        },
    }
}

/// Puts the value of a kind that has a number, and the number of that value.
pub fn put_value(kind: &str, number: &str, out: &mut String) -> Result<(), NameFault> {
    let number = parse_decimal(number.as_bytes()).unwrap_or(0);
    let number = u8::try_from(number).unwrap_or(0);
    let put = match kind {
        "act" | "back" | "cause" | "told" => put_of_row(kind, number, out),
        _ => put_of_state(kind, number, out),
    };
    put?;
    Ok(())
}
