//! Space packets (CCSDS 133.0-B) as views of the octets that they were read from, and their headers
//! as they are written.
#![tactic(auto)]

mod fault;
mod header;
mod laws;
mod pages;
mod view;

pub use fault::PacketFault;
pub use header::{Primary, UNSEGMENTED, write_primary};
pub use laws::{fault_or_packet, header_reads_back};
pub use pages::charge;
pub use view::PacketView;

#[cfg(test)]
mod tests;
