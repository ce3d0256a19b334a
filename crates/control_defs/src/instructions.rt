// Instructions of requests to services 14 and 15 (ECSS-E-ST-70-41C, 6.14 and 6.15).

use crate::patterns::Pattern;

/// What a packet store does when it is full.
#[derive(Clone, Copy, Debug, PartialEq, Eq)]
pub enum StoreKind {
    /// The oldest packets leave for the new one.
    Circular,
    /// The new packet is refused.
    Bounded,
}

impl StoreKind {
    ghost use Rattle.std.specs.Prelude.{◌≡◌};
    ghost use Rattle.control_defs.specs.Instructions.{kind_octet, store_kind_in};

    /// The octet that says it in requests and reports: 0 of a circular store, 1 of a bounded one.
    pub fn octet(self) -> u8
        ensures { result ≡ kind_octet self }
    {
        match self {
            StoreKind::Circular => 0,
            StoreKind::Bounded => 1,
        }
    }

    /// The kind that an octet says: 0 a circular store, any other octet a bounded one.
    pub fn from_octet(octet: u8) -> StoreKind
        ensures { result ≡ store_kind_in octet }
    {
        match octet {
            0 => StoreKind::Circular,
            _ => StoreKind::Bounded,
        }
    }
}

/// One instruction of a request. A `store`, `from` or `to`, or a lone number, is the identifier of
/// a packet store; times are in 1/65,536 s and below 2^48, sizes are in pages of 256 octets.
#[derive(Clone, Copy, Debug, PartialEq, Eq)]
pub enum Instruction {
    /// Forwards what the pattern covers.
    ForwardAdd(Pattern),
    /// Takes the pattern from what is forwarded.
    ForwardDelete(Pattern),
    /// Reports what is forwarded.
    ForwardReport,
    /// Begins the storage of a store.
    Enable(u16),
    /// Ends the storage of a store.
    Disable(u16),
    /// Stores what the pattern covers.
    AddTypes {
        store: u16,
        pattern: Pattern,
    },
    /// Takes the pattern from what is stored.
    DeleteTypes {
        store: u16,
        pattern: Pattern,
    },
    /// Reports what is stored.
    ReportTypes(u16),
    /// Retrieves the packets with times from `t1` to `t2`.
    StartRange {
        store: u16,
        t1: u64,
        t2: u64,
    },
    /// Deletes the packets with times up to `t`.
    DeleteUpTo {
        store: u16,
        t: u64,
    },
    /// Reports a store's content.
    Summary(u16),
    /// Moves the start of the open retrieval to `t`.
    OpenFrom {
        store: u16,
        t: u64,
    },
    /// Resumes the open retrieval.
    Resume(u16),
    /// Suspends the open retrieval.
    Suspend(u16),
    /// Aborts the retrieval of a time range.
    Abort(u16),
    /// Reports the status of every store.
    Status,
    /// Creates a store of this kind and size, with its channel.
    Create {
        store: u16,
        kind: StoreKind,
        size: u32,
        channel: u8,
    },
    /// Deletes a store.
    Remove(u16),
    /// Reports the configuration of every store.
    Configuration,
    /// Makes the packets of `from` with times from `t1` to `t2` the packets of `to`.
    Copy {
        from: u16,
        to: u16,
        t1: u64,
        t2: u64,
    },
    /// Changes the size of a store.
    Resize {
        store: u16,
        size: u32,
    },
    /// Makes a store circular.
    ToCircular(u16),
    /// Makes a store bounded.
    ToBounded(u16),
    /// Changes the channel of a store.
    Channel {
        store: u16,
        channel: u8,
    },
}
