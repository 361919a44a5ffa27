//! Texts that are told of a case.
use std::alloc::AllocError;
use std::process::Abort;

/// Compares what is told of a case with what is expected.
pub fn is_told(rt: &impl Abort, case: &str, told: Result<String, AllocError>, expected: &str) {
    let told = told.expect(rt, "memory");
    assert!(rt; told.as_str() == expected, "{case}: {told}");
    drop(told);
}
