//! Plans of shifts, timers and clocks, as tables. This library is empty but for its tests.
#![tactic(auto)]

#[cfg(test)]
mod clocks;
#[cfg(test)]
mod plans;
#[cfg(test)]
mod timers;
