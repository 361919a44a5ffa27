//! The executor over a list in memory as its recorder, by its events, as tables. This library is empty but for its tests.
#![tactic(auto)]

#[cfg(test)]
mod cases;
#[cfg(test)]
mod events;
#[cfg(test)]
mod kept;
#[cfg(test)]
mod rows;
#[cfg(test)]
mod run;
#[cfg(test)]
mod words;
