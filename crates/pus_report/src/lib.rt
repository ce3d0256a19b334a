//! Reports of this program (ECSS-E-ST-70-41C, 8.1), as they are written into a buffer.
#![tactic(auto)]

mod configuration;
mod events;
mod head;
mod patterns;
mod rows;
mod status;
mod summary;
mod verdicts;

pub use configuration::write_configuration;
pub use events::write_event;
pub use head::Head;
pub use patterns::{write_forward, write_types};
pub use pst_model::{ConfigRow, StatusRow, SummaryRow, Verdict};
pub use status::write_status;
pub use summary::write_summary;
pub use verdicts::write_verdict;

#[cfg(test)]
mod tests;
