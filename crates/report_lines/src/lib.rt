//! What goes out on the link as lines: single packets, the reports that answer a request
//! (ECSS-E-ST-70-41C, 6.14, 6.15 and 8.1.2) and the report of a refused packet, each sent by one call
//! of the board and counted. Nothing here changes a table.
#![tactic(auto)]

mod buffers;
mod content;
mod replies;
mod rows;
mod sending;
mod sent;
mod verdicts;

pub use buffers::{Buffers, LONGEST_REPORT};
pub use content::{write_content, write_summaries};
pub use replies::{send_event, send_verdicts};
pub use rows::SummaryRows;
pub use sending::send_line;
pub use sent::Sent;
pub use verdicts::{Failures, Verdicts, completed, verdicts_before};

#[cfg(test)]
mod tests;
