//! Which data blocks of a flash are free, which of those are erased, and how often each block was
//! erased. Blocks 0 to 6 hold the roots and the journal, and are never free.
#![tactic(auto)]

mod least;
mod pool;
mod sizes;

pub use pool::Pool;
pub use sizes::{blocks_for, fits};

#[cfg(test)]
mod tests;
