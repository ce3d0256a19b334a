//! What control requests speak of: keys of packets, patterns that cover keys, lists of patterns,
//! and instructions; and the octets of patterns.
#![tactic(auto)]

mod instructions;
mod keys;
mod laws;
mod lists;
mod octets;
mod patterns;
mod services;

pub use instructions::{Instruction, StoreKind};
pub use keys::Key;
pub use laws::{
    covering_is_inclusion, lawful_lists_are_tested, lists_stay_lawful, order_is_total,
    written_patterns_are_read,
};
pub use lists::{Absent, Limit, Misplaced, Patterns};
pub use octets::{pattern_at, put_pattern, spelled_pattern_at, wrong_in_pattern};
pub use patterns::Pattern;
pub use services::{FORWARDING, STORAGE};

#[cfg(test)]
mod tests;
