// Why a store was not loaded.

/// Why a store was not loaded.
#[derive(Debug, Drop)]
pub enum LoadStop {
    /// A read of the flash failed.
    Flash,
    /// The flash does not hold such records as the store may have.
    Unlawful,
    /// An allocation failed.
    NoMemory,
}
