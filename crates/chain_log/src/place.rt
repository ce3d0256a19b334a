// Where a record lies, and what may go wrong when it is loaded.
ghost use Rattle.std.specs.Prelude.{◌≡◌, ◌≢◌, OnOk, IfErr};
ghost use Rattle.chain_log.specs.Loaded.{IsMismatchAt};

/// Where a record lies: its pages are those from `page` on that its length takes.
#[derive(Clone, Copy, Debug, PartialEq, Eq)]
pub struct Place {
    /// The block's number.
    pub block: u32,
    /// The record's first page in the block.
    pub page: u32,
    /// The length of the record's packet, in octets.
    pub length: u32,
}

/// Why a record was not loaded.
#[derive(Debug, Drop)]
pub enum LoadFault {
    /// A call of the board failed.
    Flash,
    /// What was kept of a record is not what is found at its place: of its number, its length, the
    /// version of a packet (kept as 0) and the packet's own length, the first that differs.
    Mismatch {
        block: u32,
        page: u32,
        kept: u32,
        found: u32,
    },
}

impl Place {
    // Judges one number that was kept by what is found here.
    pub(crate) fn expect(self, kept: u32, found: u32) -> Result<(), LoadFault>
        ensures ok { OnOk result (kept ≡ found) }
        ensures err { IfErr result (λ fault. (kept ≢ found) × (fault ≡
            LoadFault.Mismatch self.block self.page kept found)) }
    {
        if kept == found {
            Ok(())
        } else {
            Err(LoadFault::Mismatch {
                block: self.block,
                page: self.page,
                kept,
                found,
            })
        }
    }
}
