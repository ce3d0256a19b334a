//! A file as the device, with a writer as its link, and a reader as the source of the session text.
#![tactic(auto)]

mod file_board;
mod image;
mod link;
mod medium;
#[cfg(test)]
mod medium_tests;
mod reader;
mod source;
#[cfg(test)]
mod stream_tests;
mod tally;
#[cfg(test)]
mod tests;

pub use file_board::FileBoard;
pub use image::{blocks_of, make_blank};
pub use medium::Medium;
pub use reader::Reader;
pub use source::StdSource;
