//! A board over another one that takes lines without sending them.
#![tactic(auto)]

mod muted_board;

pub use muted_board::MutedBoard;

#[cfg(test)]
mod tests;
