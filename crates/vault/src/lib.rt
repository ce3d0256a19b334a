//! The durable table of the packet stores: what of it lies in memory, the records that lie in the
//! flash, and how a change of it becomes durable.
#![tactic(auto)]

mod arriving;
mod carrying_out;
mod change_for;
mod changing;
mod copying;
mod entering;
mod fault;
mod fetching;
mod following;
mod formatting;
mod granting;
mod held_record;
mod last_block;
mod laws;
mod loading;
mod offering;
mod opening;
mod outcome;
mod pool;
mod preparing;
mod renewing;
mod reporting;
mod request_reports;
mod requests;
mod room;
mod storing;
mod vault;

pub use fault::{ChangeFault, OpenFault, VaultFault};
pub use laws::{
    copies_in_free_blocks_keep_the_table, fetches_keep_the_table, free_blocks_are_beside_the_table,
    images_hold_the_table, renewed_blocks_keep_the_table, tables_are_one,
};
pub use outcome::StoreOutcome;
pub use requests::ChangeOutcome;
pub use vault::Vault;

#[cfg(test)]
mod change_tests;
#[cfg(test)]
mod fetch_tests;
#[cfg(test)]
mod filling_tests;
#[cfg(test)]
mod image_writer;
#[cfg(test)]
mod open_tests;
#[cfg(test)]
mod renew_tests;
#[cfg(test)]
mod report_tests;
#[cfg(test)]
mod store_tests;
