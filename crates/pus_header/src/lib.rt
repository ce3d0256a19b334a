//! PUS-C headers of packets (ECSS-E-ST-70-41C, 7.4): the key of a packet, telecommands as views of
//! their packets, and the headers of a report.
#![tactic(auto)]

mod commands;
mod faults;
mod keys;
mod laws;
mod numbers;
mod reading;
mod reports;

pub use commands::{TcView, identifier_of};
pub use faults::TcFault;
pub use keys::key_of;
pub use laws::{command_or_fault, kind_or_none, report_reads_back};
pub use numbers::{APID, PUS_VERSION, TC_HEADERS, TM_HEADERS};
pub use reading::read_tc;
pub use reports::write_tm_head;

#[cfg(test)]
mod tests;
