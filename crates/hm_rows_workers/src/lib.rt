//! Workers in threads over a hall that hands out many equal tasks. This library is empty but for its tests,
//! and the stages of tasks.
#![tactic(auto)]

#[cfg(test)]
mod hands;
#[cfg(test)]
mod runs;
mod stage;
#[cfg(test)]
mod toy;
