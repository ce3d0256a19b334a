//! The journal of a directory: the directory that an image holds, the format that begins it, and
//! how entries and checkpoints are added.
#![tactic(auto)]

mod committing;
mod formatting;
mod half;
mod journal;
mod laws;
mod reading;
mod switching;

pub use formatting::format;
pub use half::half_of;
pub use journal::Journal;
pub use laws::{
    advancing_keeps_the_directory, choices_hold_directories, firm_journals_hold_the_directory,
    halves_hold_one_entry_more, journals_hold_their_directory, other_blocks_may_change,
    other_pages_may_hold_anything, repairing_keeps_the_directory, rooted_images_hold_the_directory,
};
pub use reading::checkpoint_of;

#[cfg(test)]
mod tests;
