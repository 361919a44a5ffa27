//! A gate round numbers, and threads that add to it. This library is empty but for its tests.
#![tactic(auto)]

#[cfg(test)]
mod adding;
#[cfg(test)]
mod tally;
