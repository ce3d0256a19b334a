// What is known of a store's last block.

/// The last block of a store.
#[derive(Clone, Copy, Debug, PartialEq, Eq)]
pub struct LastBlock {
    /// How many of its pages the store's records use, 0 to 256. 0 if the store has no block.
    pub used: u32,
    /// Whether it was written before this opening, so that no other page of it is known to be
    /// clean.
    pub stale: bool,
}
