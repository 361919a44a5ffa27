//! Sources and sinks, disks and logs, in tables. This library is empty but for its tests.
#![tactic(auto)]

#[cfg(test)]
mod batches;
#[cfg(test)]
mod disks;
#[cfg(test)]
mod logs;
#[cfg(test)]
mod moves;
#[cfg(test)]
mod ports;
#[cfg(test)]
mod stops;
