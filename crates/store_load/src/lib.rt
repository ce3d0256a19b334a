//! The records that a store keeps on a flash, found by its row and its links.
#![tactic(auto)]

mod claiming;
mod indexes;
mod laws;
mod link_loading;
mod loading;
mod rule;
mod stop;
mod store_loading;

pub use claiming::claim;
pub use indexes::{
    entries_move_one_by_one, indexes_begin_blocks, indexes_get_their_records,
    indexes_lose_their_fronts, indexes_move_to_new_blocks, indexes_stay,
};
pub use laws::{
    blocks_are_begun, fronts_go, indexes_list_the_kept_records, last_blocks_may_be_swapped,
    loaded_stores_are_in_range, records_are_appended, rows_count_their_records,
    stores_are_read_from_their_records,
};
pub use rule::Rule;
pub use stop::LoadStop;
pub use store_loading::{Loaded, load_store};

#[cfg(test)]
mod load_tests;
#[cfg(test)]
mod tests;
