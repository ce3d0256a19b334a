//! Whole sessions over an outside that hurts: a source that gives little at a time, a link that
//! breaks within a line, and texts made to be refused.
#![tactic(auto)]

mod half_board;
#[cfg(test)]
mod session_tests;
mod short_source;
#[cfg(test)]
mod tests;

pub use half_board::HalfBoard;
pub use short_source::ShortSource;
