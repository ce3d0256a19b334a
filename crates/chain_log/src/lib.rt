//! Records of packets in the data blocks of a flash: the block at the end of a chain, to which
//! records are appended, and records that are loaded by their block or their place.
//!
//! A record takes as many pages as its packet's page cost, one behind the other, within one block.
//! They are programmed in ascending order without a barrier: until the caller makes one, a power
//! loss may leave anything in them, and in no other page.
#![tactic(auto)]

mod copying;
mod laws;
mod loading;
mod pages;
mod place;
mod tail;

pub use copying::copy_record;
pub use laws::{records_are_loaded, records_stand, records_stay};
pub use loading::{load_block, load_record};
pub use place::{LoadFault, Place};
pub use tail::Tail;

#[cfg(test)]
mod failing_tests;
#[cfg(test)]
mod tests;
