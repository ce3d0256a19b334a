//! What an arriving packet makes of the directory of the stores, of its table and of the time
//! indexes, store by store (ECSS-E-ST-70-41C, 6.15.3). Nothing here computes for the program: the
//! crates above cite it.
#![tactic(auto)]

mod beside;
mod counting;
mod indexing;
mod leaving;
mod placing;
mod tails;
mod walking;

pub use beside::records_lie_before_new_pages;
pub use counting::refusals_are_counted;
pub use indexing::{
    indexed_tables_are_shown, indexes_go_on, rows_and_indexes_stay_together,
    shown_tables_are_indexed,
};
pub use leaving::blocks_leave_with_their_links;
pub use placing::{places_go_on, places_stay_beside, times_are_those_of_the_packet};
pub use tails::{last_blocks_go_on, last_blocks_stay_beside};
pub use walking::{
    idle_packets_change_the_clock, walks_begin, walks_begin_blocks, walks_end, walks_pass_stores,
    walks_stay_beside, walks_take_packets, walks_tell_refusals,
};
