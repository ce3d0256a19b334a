// Why a journal was not read.

/// Why a journal was not read.
#[derive(Clone, Copy, Debug, PartialEq, Eq)]
pub enum ReadStop {
    /// A read of the flash failed.
    Flash,
    /// An allocation failed.
    NoMemory,
}
