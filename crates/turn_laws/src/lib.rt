//! Laws on which commands the octets that were sent acknowledge, and on the tables that sessions leave
//! one after another when each of them is stopped. Nothing here computes for the program.
#![tactic(auto)]

mod numbers;
mod sessions;
mod turns;

pub use numbers::outputs_are_numbered;
pub use sessions::{runs_follow, sessions_follow};
pub use turns::{commands_in_turn, sends_in_turn, tables_in_turn, turns_stand_behind_more};
