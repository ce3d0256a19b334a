// What is asked of a store's records.

/// What a store's blocks and packets have to be like.
#[derive(Clone, Copy, Debug, PartialEq, Eq)]
pub struct Rule {
    /// The pages that every block but a store's last has in use, 1 to 256.
    pub least: u32,
    /// The octets of the largest packet, at least 7.
    pub largest: u32,
}
