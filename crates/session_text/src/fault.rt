// Why a text ends early.

use pst_model::LineFault;

/// Why there is no next command.
#[derive(Clone, Copy, Debug, PartialEq, Eq)]
pub enum LineEnd {
    /// The line with this number, counted from 1, is bad.
    Bad { line: u64, why: LineFault },
    /// The source failed.
    Source,
}
