// Why a listing ended early.
ghost use Rattle.std.specs.Prelude.{◌≡◌};
ghost use Rattle.listing.specs.Faults.{listing_fault_of};

use vault::VaultFault;

/// Why a listing was not sent to its end.
#[derive(Clone, Copy, Debug, PartialEq, Eq)]
pub enum ListingFault {
    /// A read of the flash failed. The vault is closed then.
    Flash,
    /// The link failed. The vault is open still.
    Link,
    /// What was kept of a record is not what is found at its place. The vault is closed then.
    Mismatch {
        block: u32,
        page: u32,
        kept: u32,
        found: u32,
    },
}

// Why a packet was not fetched.
pub(crate) fn fault_of(fault: VaultFault) -> ListingFault
    ensures { result ≡ listing_fault_of fault }
{
    match fault {
        VaultFault::Flash => ListingFault::Flash,
        VaultFault::Mismatch {
            block,
            page,
            kept,
            found,
        } => ListingFault::Mismatch {
            block,
            page,
            kept,
            found,
        },
    }
}
