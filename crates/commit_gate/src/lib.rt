//! Entries of a journal's half, each of which a stop leaves whole or not at all.
#![tactic(auto)]

mod area;
mod gate;
mod laws;
mod payload;
mod reading;
mod text;

pub use area::Area;
pub use gate::append;
pub use laws::{entries_are_read, images_are_read};
pub use payload::{is_lawful, payload_pages};
pub use reading::{Next, next_entry};
pub use text::{read_length, read_rest, write_text};

#[cfg(test)]
mod tests;
