//! The outside of the program: the device with its link, and the source of the session text.
#![tactic(auto)]

mod board;
mod cache;
mod calls;
mod history;
mod laws;
mod memory;
mod memory_board;
mod memory_source;
#[cfg(test)]
mod script;
mod source;
mod step;
mod stop;
#[cfg(test)]
mod stop_tests;
#[cfg(test)]
mod tests;

pub use board::{Board, Failed};
pub use calls::CallKind;
pub use laws::images_are_of_the_flash;
pub use memory::MemBoard;
pub use memory_source::MemSource;
pub use source::Source;
pub use stop::Torn;
