//! Lock books by their calls, and what procedures ask for. This library is empty but for its tests.
#![tactic(auto)]

#[cfg(test)]
mod asking;
#[cfg(test)]
mod books;
#[cfg(test)]
mod deeds;
#[cfg(test)]
mod texts;
#[cfg(test)]
mod work;
