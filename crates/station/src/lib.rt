//! A session with the packet store: the top call of the program.
#![tactic(auto)]

mod carrying;
mod device;
mod ending;
mod formatting;
mod generating;
mod number_words;
mod opening;
mod rehearsal;
mod sending;
mod session;
mod summary;
mod tally;
mod words;

pub use device::{Device, device_of};
pub use ending::Ending;
pub use rehearsal::{Rehearsal, rehearse};
pub use session::station;

#[cfg(test)]
mod tests;
