//! Fields and entries as bytes, in tables. This library is empty but for its tests.
#![tactic(auto)]

#[cfg(test)]
mod entries;
#[cfg(test)]
mod fields;
#[cfg(test)]
mod parts;
