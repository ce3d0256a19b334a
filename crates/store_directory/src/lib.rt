//! The directory of the packet stores: what is known of each store without its packets, the blocks
//! in which these lie, and the changes of it that a journal holds; and their octets.
#![tactic(auto)]

mod change;
mod change_text;
mod change_writing;
mod checkpoint_text;
mod checkpointing;
mod directory;
mod fault;
mod first_checkpoint;
mod folding;
mod laws;
mod link_text;
mod links;
mod pattern_text;
mod row;
mod row_text;
mod sameness;
mod slot;
mod store_text;
mod stores;

pub use change::Change;
pub use change_writing::write_change;
pub use directory::Directory;
pub use fault::{ApplyFault, FoldFault};
pub use first_checkpoint::write_first_checkpoint;
pub use laws::{
    directories_are_compared, directories_fit_in_turn, kept_directories_are_read,
    written_changes_are_read, written_checkpoints_are_read, written_entries_are_read,
};
pub use row::Row;

#[cfg(test)]
mod change_tests;
#[cfg(test)]
mod checkpoint_tests;
#[cfg(test)]
mod directory_tests;
#[cfg(test)]
mod folding_tests;
#[cfg(test)]
mod format_tests;
#[cfg(test)]
mod row_tests;
