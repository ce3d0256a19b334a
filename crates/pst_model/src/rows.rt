// What reports say of one packet store each.

use control_defs::StoreKind;

/// A store in the summary report (ECSS-E-ST-70-41C, 6.15.3.8). Sizes are in pages of 256 octets,
/// times in 1/65,536 s below 2^48, and 0 where the store is empty.
#[derive(Clone, Copy, Debug, Default, PartialEq, Eq)]
pub struct SummaryRow {
    /// Its identifier.
    pub store: u16,
    /// How many packets it has.
    pub packets: u32,
    /// Their pages.
    pub pages: u32,
    /// The storage time of its first packet.
    pub oldest: u64,
    /// The storage time of its last packet.
    pub newest: u64,
    /// How many packets open retrieval has not passed.
    pub ahead: u32,
}

/// A store in the status report.
#[derive(Clone, Copy, Debug, Default, PartialEq, Eq)]
pub struct StatusRow {
    /// Its identifier.
    pub store: u16,
    /// Whether its storage is on.
    pub storage: bool,
    /// Whether its open retrieval is on.
    pub open_on: bool,
    /// Whether a range retrieval stands.
    pub range: bool,
}

/// A store in the configuration report.
#[derive(Clone, Copy, Debug, PartialEq, Eq)]
pub struct ConfigRow {
    /// Its identifier.
    pub store: u16,
    /// What it does when it is full.
    pub kind: StoreKind,
    /// Its size in pages of 256 octets.
    pub size: u32,
    /// The virtual channel of its packets.
    pub channel: u8,
}
