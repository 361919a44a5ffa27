//! Roots of a base.
use hm_data::Phase;
use hm_names::{Nonce, Pid};
use hm_records::Records;
use std::alloc::AllocError;

// Puts what a root did, by the number of its kind, and how it ended.
fn put_end(kind: u8, phase: Phase, out: &mut String) -> Result<(), AllocError> {
    write!(out, "kind {kind} {phase:?}")
}

// Puts who was made under a nonce.
fn put_made(records: &Records, nonce: &Nonce, out: &mut String) -> Result<(), AllocError> {
    write!(out, ", {nonce} of ")?;
    match records.by_nonce(nonce) {
        Some(pid) => write!(out, "{}", pid.0),
        None => out.push_str("none"),
    }
}

/// Puts a root by its number, and who was made under its nonce.
pub fn put_root(
    records: &Records,
    pid: Pid,
    nonce: &Nonce,
    out: &mut String,
) -> Result<(), AllocError> {
    write!(out, "; {} ", pid.0)?;
    match records.procedures().find_old(pid) {
        Some(root) => put_end(root.kind, root.phase, out)?,
        None => out.push_str("missing")?,
    }
    put_made(records, nonce, out)
}
