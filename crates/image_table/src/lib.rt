//! The table that an image of the flash holds, and which pages it is read from. Nothing here
//! computes for the program: the crates above cite it.
#![tactic(auto)]

mod changing;
mod granting;
mod laws;

pub use changing::{
    clocks_go_on, fronts_leave_the_table, new_blocks_enter_the_directory, records_enter_the_table,
    renewed_blocks_keep_the_table,
};
pub use granting::{
    clocks_are_shown, counts_go_on, grants_go_on, packets_are_kept_records, tables_go_by_rows,
};
pub use laws::{
    commits_change_one_table, images_hold_the_table, steps_beside_keep_the_table,
    tables_are_read_from_their_frame,
};
