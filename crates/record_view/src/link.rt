// A store's part in one block.

/// A block of a store, and the number of its first record there.
#[derive(Clone, Copy, Debug, PartialEq, Eq)]
pub struct Link {
    /// The block's number, below 512.
    pub block: u16,
    /// The number of the record at the block's page 0.
    pub first: u32,
}
