//! What is written of a packet store into data blocks: its last block, copied to a fresh one.
#![tactic(auto)]

mod copying;
mod laws;
mod renewing;

pub use laws::{
    last_records_fit_a_block, last_records_lie_in_the_links,
    renewed_blocks_take_the_place_of_old_ones, renewed_stores_are_indexed,
    renewed_stores_share_the_device, renewed_stores_stay_in_range,
};
pub use renewing::{first_in_last, renew_block};

#[cfg(test)]
mod tests;
