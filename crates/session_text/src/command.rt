// What a line of the text asks for.

use space_packet::PacketView;

/// A command. Its moment is a number of 1/65,536 seconds, below 2^48 (CCSDS 301.0-B, 3.2).
#[derive(Clone, Copy)]
pub enum Command<'a> {
    /// A packet arrives.
    Arrival { moment: u64, packet: PacketView<'a> },
    /// A ground request arrives, in any packet.
    Request { moment: u64, packet: PacketView<'a> },
    /// The downlink has room for one packet.
    Grant { moment: u64 },
    /// Nothing is to be done.
    Idle { moment: u64 },
}
