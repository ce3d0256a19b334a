// The row of a store.
ghost use Rattle.std.specs.Prelude.{◌≡◌};
ghost use Rattle.store_directory.specs.Rows.{FitsRow, is_lawful_row, range_end, range_next};

use control_defs::StoreKind;

/// A packet store without its patterns and its packets (ECSS-E-ST-70-41C, 6.15).
#[derive(Clone, Copy, Debug, PartialEq, Eq)]
pub struct Row {
    pub identifier: u16,
    /// What the store does when it is full.
    pub kind: StoreKind,
    /// In pages, 1 to 100,000.
    pub size: u32,
    /// The virtual channel of its packets, 1 to 7.
    pub channel: u8,
    /// Whether packets are stored.
    pub storage: bool,
    /// Whether open retrieval is on.
    pub open_on: bool,
    /// Whether a refusal was reported since the last put.
    pub told: bool,
    /// The number of the first record.
    pub first: u32,
    /// How many records there are, at most `size`.
    pub count: u32,
    /// How many packets at the front open retrieval has passed, at most `count`.
    pub behind: u32,
    /// The positions of a range retrieval, from the first one up to, and not including, the second,
    /// which is at most `count`.
    pub range: Option<(u32, u32)>,
}

// The positions of a range, and 0 where there is none.
pub(crate) fn positions_of(range: Option<(u32, u32)>) -> (u32, u32)
    ensures next { result.0 ≡ range_next range }
    ensures end { result.1 ≡ range_end range }
{
    range.unwrap_or((0, 0))
}

// Each number of a row fits the octets of its field.
fn octets_fit(row: Row)
    ensures { FitsRow row }
{
    let _positions = positions_of(row.range);
}

impl Row {
    /// Whether a store may have the row: its numbers are in their ranges, and its positions among
    /// its packets.
    pub fn is_lawful(&self) -> bool
        ensures lawful { result ≡ is_lawful_row self.now }
        ensures fits { FitsRow self.now }
    {
        octets_fit(*self);
        let positions_lie_within = match self.range {
            Some((next, end)) => next < end && end <= self.count,
            None => true,
        };
        (1..=100_000).contains(&self.size)
            && (1..=7).contains(&self.channel)
            && self.count <= self.size
            && self.behind <= self.count
            && positions_lie_within
    }
}
