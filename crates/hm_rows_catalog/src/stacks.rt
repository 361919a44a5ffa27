//! The stacks of two roots.
use crate::texts::is_told;
use hm_names::{List, Pid};
use hm_undo::Stack;
use std::alloc::{AllocError, Global};

// A step without edits.
fn push(stack: &mut Stack, alloc: Global, step: (u64, u64, u8)) -> Result<(), AllocError> {
    let (root, pid, row) = step;
    stack.reserve(alloc, 1)?;
    stack.push(Pid(root), Pid(pid), row, List::of(Vec::new(alloc)));
    Ok(())
}

// Takes a step without edits back, if there is one.
fn pop(stack: &mut Stack, root: Pid) -> bool {
    if stack.next_undo(root).is_none() || !stack.edits(root).is_empty() {
        return false;
    }
    stack.pop(root);
    true
}

// Puts whose step of a root is undone next, and its row.
fn put_next(out: &mut String, stack: &Stack, root: u64) -> Result<(), AllocError> {
    match stack.next_undo(Pid(root)) {
        Some((pid, row)) => write!(out, "{}.{row} ", pid.0),
        None => out.push_str("- "),
    }
}

// Puts that of three roots.
fn put_all(out: &mut String, stack: &Stack) -> Result<(), AllocError> {
    for root in [1, 2, 7] {
        put_next(out, stack, root)?;
    }
    Ok(())
}

// Puts what is told after some calls, and then after more.
fn put_calls(alloc: Global, out: &mut String, stack: &mut Stack) -> Result<(), AllocError> {
    for step in [(1, 1, 1), (7, 7, 2), (1, 3, 0)] {
        push(stack, alloc, step)?;
    }
    put_all(out, stack)?;
    let popped = pop(stack, Pid(1));
    write!(out, "{popped} ")?;
    put_all(out, stack)?;
    push(stack, alloc, (1, 4, 5))?;
    put_all(out, stack)?;
    stack.forget(Pid(1));
    stack.forget(Pid(2));
    put_all(out, stack)
}

fn calls(alloc: Global, stack: &mut Stack) -> Result<String, AllocError> {
    let mut text = String::new(alloc);
    match put_calls(alloc, &mut text, stack) {
        Ok(()) => Ok(text),
        Err(error) => {
            drop(text);
            Err(error)
        }
    }
}

#[test]
fn new_reserve_push_next_undo_edits_pop_and_forget_of_two_roots(rt: HostRuntime) {
    let mut stack = Stack::new(rt.alloc()).expect(&rt, "memory");
    let told = calls(rt.alloc(), &mut stack);
    drop(stack);
    is_told(
        &rt,
        "calls",
        told,
        "3.0 - 7.2 true 1.1 - 7.2 4.5 - 7.2 - - 7.2 ",
    );
}
