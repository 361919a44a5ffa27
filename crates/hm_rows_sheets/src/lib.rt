//! Sheets and the registries that run them, in tables. This library is empty but for its tests.
#![tactic(auto)]

#[cfg(test)]
mod asks;
#[cfg(test)]
mod cases;
#[cfg(test)]
mod checks;
#[cfg(test)]
mod inputs;
#[cfg(test)]
mod learns;
#[cfg(test)]
mod names;
#[cfg(test)]
mod outputs;
#[cfg(test)]
mod parts;
#[cfg(test)]
mod runs;
#[cfg(test)]
mod spent;
#[cfg(test)]
mod steps;
#[cfg(test)]
mod words;
