// Why a change, or the text of changes, is refused.

/// A change does not fit.
#[derive(Clone, Copy, Debug, PartialEq, Eq)]
pub struct Unfit;

/// Why a directory did not take a change.
#[derive(Clone, Copy, Debug, PartialEq, Eq)]
pub enum ApplyFault {
    /// The change does not fit.
    Unfit,
    /// There was no memory for a new store, or for one that is to be greater than it has been.
    NoMemory,
}

/// Why the text of an entry was not folded, or that of a checkpoint not read.
#[derive(Clone, Copy, Debug, PartialEq, Eq)]
pub enum FoldFault {
    /// No change is spelled at this octet, or the checkpoint is not.
    Spelling { at: u32 },
    /// The change at this octet does not fit, or the checkpoint is not lawful.
    Unfit { at: u32 },
    /// There was no memory for a store, or for the directory.
    NoMemory,
}
