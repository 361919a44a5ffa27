//! A state's own calls, in tables: what may be added, and what is seen then. This library is empty but for its tests.
#![tactic(auto)]

#[cfg(test)]
mod based;
#[cfg(test)]
mod images;
#[cfg(test)]
mod journal;
#[cfg(test)]
mod readers;
#[cfg(test)]
mod rules;
#[cfg(test)]
mod state;
#[cfg(test)]
mod texts;
