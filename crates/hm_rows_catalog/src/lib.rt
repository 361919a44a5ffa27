//! Requests and what they do to a catalog, the rows that it tells, and stacks of steps, in tables. This library is empty but for its tests.
#![tactic(auto)]

#[cfg(test)]
mod calls;
#[cfg(test)]
mod deeds;
#[cfg(test)]
mod reads;
#[cfg(test)]
mod requests;
#[cfg(test)]
mod spans;
#[cfg(test)]
mod stacks;
#[cfg(test)]
mod texts;
