// Why a command was not carried out.
ghost use Rattle.std.specs.Prelude.{◌≡◌};
ghost use Rattle.handler.specs.Faults.{handler_fault_of};

use vault::VaultFault;

/// Why a command was not carried out. The handler is closed after each of these but `NoMemory`.
#[derive(Clone, Copy, Debug, PartialEq, Eq)]
pub enum HandlerFault {
    /// A call of the flash failed. The table is the one from before the command or the one behind it,
    /// and nothing of the command was sent.
    Flash,
    /// The link failed: a prefix of the command's lines was sent. The table is the one behind it.
    Link,
    /// What was kept of a record is not what is found at its place: of its number, its length, the
    /// version of a packet (kept as 0) and the packet's own length, the first that differs. Nothing
    /// was sent.
    Mismatch {
        block: u32,
        page: u32,
        kept: u32,
        found: u32,
    },
    /// There was no memory. Nothing of the command was done.
    NoMemory,
}

// A fault of the vault.
pub(crate) fn fault_of(fault: VaultFault) -> HandlerFault
    ensures { result ≡ handler_fault_of fault }
{
    match fault {
        VaultFault::Flash => HandlerFault::Flash,
        VaultFault::Mismatch {
            block,
            page,
            kept,
            found,
        } => HandlerFault::Mismatch {
            block,
            page,
            kept,
            found,
        },
    }
}
