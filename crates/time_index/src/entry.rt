// What is known in memory of one stored packet.

/// One packet of a store: its time and its place.
#[derive(Clone, Copy, Debug, PartialEq, Eq)]
pub struct Entry {
    /// When the packet was stored, in units of 1/65,536 s.
    pub stamp: u64,
    /// The block that holds the packet's record.
    pub block: u16,
    /// The first page of the record in that block.
    pub page: u8,
    /// The packet's length in octets, without its record head.
    pub length: u16,
}
