// Why an instruction is refused.
ghost use Rattle.std.specs.Prelude.{◌≡◌};
ghost use Rattle.store_policy.specs.Codes.{code_of};

/// Why an instruction fails (ECSS-E-ST-70-41C, 6.15.3). The default fills the free room of a list of
/// refusals.
#[derive(Clone, Copy, Debug, Default, PartialEq, Eq)]
pub enum Refusal {
    /// No store has the identifier.
    #[default]
    UnknownStore,
    /// A store has the identifier already.
    StoreExists,
    /// 32 stores stand.
    StoreLimit,
    /// The size is not from 1 to 100,000 pages.
    SizeRange,
    /// The stores would reserve more blocks than the device has for them: how many this one needs, and
    /// how many the others leave.
    NoBlocks { need: u32, free: u32 },
    /// The channel is not from 1 to 7.
    BadChannel,
    /// Packets are stored.
    StorageOn,
    /// Open retrieval is on.
    OpenOn,
    /// There is a range retrieval.
    RangeOn,
    /// The first time of a window is behind its second.
    Reversed,
    /// The store to copy into has a packet.
    NotEmpty,
    /// No packet lies in the window.
    NothingThere,
    /// The packets of the window take more pages than the store to copy into has.
    Full { need: u32, free: u32 },
    /// The store's packets take more pages than the new size.
    TooSmall { content: u32 },
    /// 65 patterns would stand.
    PatternLimit,
    /// The pattern itself does not stand.
    PatternAbsent,
    /// It is so already.
    AlreadySo,
    /// A store would be copied into itself.
    SameStore,
}

impl Refusal {
    /// The code of the refusal in reports: 6 to 22 in this order, and 24.
    pub fn code(&self) -> u8
        ensures { result ≡ code_of self.now }
    {
        match self {
            Refusal::UnknownStore => 6,
            Refusal::StoreExists => 7,
            Refusal::StoreLimit => 8,
            Refusal::SizeRange => 9,
            Refusal::NoBlocks { .. } => 10,
            Refusal::BadChannel => 11,
            Refusal::StorageOn => 12,
            Refusal::OpenOn => 13,
            Refusal::RangeOn => 14,
            Refusal::Reversed => 15,
            Refusal::NotEmpty => 16,
            Refusal::NothingThere => 17,
            Refusal::Full { .. } => 18,
            Refusal::TooSmall { .. } => 19,
            Refusal::PatternLimit => 20,
            Refusal::PatternAbsent => 21,
            Refusal::AlreadySo => 22,
            Refusal::SameStore => 24,
        }
    }
}

#[cfg(test)]
mod tests {
    use super::Refusal;

    #[test]
    fn codes_of_refusals(rt: HostRuntime) {
        let (need, free) = (6, 5);
        let rows = [
            (Refusal::UnknownStore, 6),
            (Refusal::NoBlocks { need, free }, 10),
            (Refusal::BadChannel, 11),
            (Refusal::OpenOn, 13),
            (Refusal::RangeOn, 14),
            (Refusal::Full { need, free }, 18),
            (Refusal::TooSmall { content: 4 }, 19),
            (Refusal::AlreadySo, 22),
            (Refusal::SameStore, 24),
        ];
        for (refusal, code) in rows {
            assert_eq!(rt; refusal.code(), code);
        }
    }
}
