//! What no session shows of the crates below requests: sources, sinks and disks in memory call by call, a disk over a file, texts
//! and lists, lines of an input of which few bytes may be taken, searches of a plain listing, and exact numbers at their ends.
#![tactic(auto)]

#[cfg(test)]
mod disks;
#[cfg(test)]
mod files;
#[cfg(test)]
mod lines;
#[cfg(test)]
mod listing;
#[cfg(test)]
mod numbers;
#[cfg(test)]
mod sinks;
#[cfg(test)]
mod sources;
#[cfg(test)]
mod types;
