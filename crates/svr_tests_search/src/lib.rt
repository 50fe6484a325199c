//! What tests alone show of the search: worked rows by hand, and random groups beside the plain slow program.
#![tactic(auto)]

#[cfg(test)]
mod lists;
#[cfg(test)]
mod live;
#[cfg(test)]
mod over_pages;
#[cfg(test)]
mod random;
#[cfg(test)]
mod rows;
mod search;
