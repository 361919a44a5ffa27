//! Disks over real files, and disks that are cut, in tables. This library is empty but for its tests.
#![tactic(auto)]

#[cfg(test)]
mod cuts;
#[cfg(test)]
mod files;
#[cfg(test)]
mod logs;
#[cfg(test)]
mod things;
