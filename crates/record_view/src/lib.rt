//! Records of packets in the pages of a block.
//!
//! A record begins at a page of 256 octets. Octets 0 to 5 are the stamp, 6 to 9 the number, 10 and
//! 11 the packet's length, 12 to 15 are 0. The packet follows, and then zeros to the end of the
//! last page. A reader does not look at those zeros. Numbers are highest octet first.
#![tactic(auto)]

mod laws;
mod link;
mod reading;
mod view;
mod writing;

pub use laws::{records_are_read, written_records_are_read};
pub use link::Link;
pub use reading::Records;
pub use view::{RecordView, read_record};
pub use writing::write_record;

#[cfg(test)]
mod tests;
