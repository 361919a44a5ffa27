//! Scripts read and printed, in tables. This library is empty but for its tests.
#![tactic(auto)]

#[cfg(test)]
mod commands;
#[cfg(test)]
mod faults;
