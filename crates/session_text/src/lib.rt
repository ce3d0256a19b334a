//! The session text: its lines as commands, and the lines that go out.
#![tactic(auto)]

mod command;
mod fault;
mod find;
mod form;
mod held;
mod lines;
mod output;
mod trim;

pub use command::Command;
pub use fault::LineEnd;
pub use lines::Lines;
pub use output::write_line;
pub use pst_model::LineFault;

#[cfg(test)]
mod tests;
