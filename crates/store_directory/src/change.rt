// The changes of a directory.

use crate::row::Row;
use control_defs::Pattern;
use record_view::Link;

/// A change of a directory. An APID in a pattern is at most 2,047.
#[derive(Clone, Copy, Debug)]
pub enum Change<'a> {
    /// The last storage time, below 2^48 in 1/65,536 seconds, and the number of reports, below
    /// 16,384.
    Clock {
        now: u64,
        reports: u16,
    },
    /// A store's row becomes this one, or a new store goes last. The links that hold no record of
    /// the row any more leave the front.
    Put(Row),
    /// The store with this identifier goes.
    Gone(u16),
    /// A forward pattern is added, or else removed.
    Forward {
        add: bool,
        pattern: Pattern,
    },
    /// A pattern of a store is added, or else removed.
    Types {
        store: u16,
        add: bool,
        pattern: Pattern,
    },
    /// Blocks are added behind those of a store.
    Links {
        store: u16,
        links: &'a [Link],
    },
    /// The last block of a store is replaced.
    Swap {
        store: u16,
        block: u16,
        first: u32,
    },
}
