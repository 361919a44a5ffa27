//! Scripts by their seeds, in a table. This library is empty but for its tests.
#![tactic(auto)]

#[cfg(test)]
mod scripts;
