//! Retrieval (ECSS-E-ST-70-41C, 6.15.3): which packet a grant sends, and what becomes of the
//! positions of a store's row where packets are sent or leave, and where its retrievals are set.
#![tactic(auto)]

mod laws;
mod pick;
mod positions;

pub use laws::picks_are_granted;
pub use pick::{Pick, next_of};
pub use positions::{after_drop, after_sent, open_from, with_range};

#[cfg(test)]
mod tests;
