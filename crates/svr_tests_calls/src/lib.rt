//! What no session shows of the crates from schemas to requests: what is kept of a schema, changes of rows that fit no table,
//! the order of terms, and replies that aren't given as yet.
#![tactic(auto)]

#[cfg(test)]
mod replies;
#[cfg(test)]
mod requests;
#[cfg(test)]
mod rows;
#[cfg(test)]
mod schemas;
#[cfg(test)]
mod terms;
