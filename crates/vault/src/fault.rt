// Why a table is not opened.
ghost use Rattle.std.specs.Prelude.{◌≡◌};
ghost use Rattle.vault.specs.Answers.{open_fault_of_load, open_fault_of_read};

use journal_reader::ReadStop;
use store_load::LoadStop;

/// Why a table was not opened.
#[derive(Clone, Copy, Debug, PartialEq, Eq)]
pub enum OpenFault {
    /// The flash holds no table.
    NotHeld,
    /// A read of the flash failed.
    Flash,
    /// An allocation failed.
    NoMemory,
}

// Why the journal was not read.
pub(crate) fn fault_of_read(stop: ReadStop) -> OpenFault
    ensures { result ≡ open_fault_of_read stop }
{
    match stop {
        ReadStop::Flash => OpenFault::Flash,
        ReadStop::NoMemory => OpenFault::NoMemory,
    }
}

// Why a store was not loaded.
pub(crate) fn fault_of_load(stop: LoadStop) -> OpenFault
    ensures { result ≡ open_fault_of_load stop }
{
    match stop {
        LoadStop::Flash => OpenFault::Flash,
        LoadStop::Unlawful => OpenFault::NotHeld,
        LoadStop::NoMemory => OpenFault::NoMemory,
    }
}

/// Why a call of an open table failed. The table is closed then.
#[derive(Clone, Copy, Debug, PartialEq, Eq)]
pub enum VaultFault {
    /// A call of the flash failed.
    Flash,
    /// What was kept of a record is not what is found at its place: of its number, its length, the
    /// version of a packet (kept as 0) and the packet's own length, the first that differs.
    Mismatch {
        block: u32,
        page: u32,
        kept: u32,
        found: u32,
    },
}

/// Why a request was not carried out. The table is closed after `Flash` and `Mismatch`, and is as
/// before after `NoMemory`.
#[derive(Clone, Copy, Debug, PartialEq, Eq)]
pub enum ChangeFault {
    /// A call of the flash failed.
    Flash,
    /// What was kept of a record is not what is found at its place: of its number, its length, the
    /// version of a packet (kept as 0) and the packet's own length, the first that differs.
    Mismatch {
        block: u32,
        page: u32,
        kept: u32,
        found: u32,
    },
    /// An allocation failed.
    NoMemory,
}
