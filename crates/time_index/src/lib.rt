//! The time index of a packet store: for each packet its time, its place and its length, in a ring
//! whose memory is taken when it is made.
#![tactic(auto)]

mod entry;
mod index;
mod ring;

pub use entry::Entry;
pub use index::Index;

#[cfg(test)]
mod tests;
