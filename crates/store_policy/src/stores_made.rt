// Stores written out by hand, and what `check` answers on them.

use crate::{Refusal, View, check};
use control_defs::Instruction;
use control_defs::StoreKind::{Bounded, Circular};
use std::alloc::Global;
use store_directory::{Change, Directory, Row};
use time_index::{Entry, Index};

// A store of 64 pages with nothing on.
pub(crate) const QUIET: Row = Row {
    identifier: 1,
    kind: Circular,
    size: 64,
    channel: 1,
    storage: false,
    open_on: false,
    told: false,
    first: 0,
    count: 2,
    behind: 0,
    range: None,
};

// Two packets each, but for the sixth store, which has one page and no packet.
pub(crate) fn rows() -> [Row; 6] {
    [
        QUIET,
        Row {
            identifier: 2,
            storage: true,
            ..QUIET
        },
        Row {
            identifier: 3,
            open_on: true,
            ..QUIET
        },
        Row {
            identifier: 4,
            range: Some((0, 1)),
            ..QUIET
        },
        Row {
            identifier: 5,
            storage: true,
            open_on: true,
            range: Some((0, 1)),
            kind: Bounded,
            ..QUIET
        },
        Row {
            identifier: 6,
            kind: Bounded,
            size: 1,
            count: 0,
            ..QUIET
        },
    ]
}

// The stores in memory: the packets of each have a page each, and times 1, 2 and so on.
#[derive(Drop)]
pub(crate) struct Stores {
    pub(crate) directory: Directory,
    pub(crate) indexes: Vec<Index>,
}

// The stores of these rows. None where they could not be made.
pub(crate) fn stores_of(alloc: Global, rows: &[Row]) -> Option<Stores> {
    let mut directory = Directory::new(alloc).ok()?;
    let mut indexes = Vec::new(alloc);
    for row in rows {
        directory.apply(alloc, &Change::Put(*row)).ok()?;
        indexes.push(index_of(alloc, row.size, row.count)?).ok()?;
    }
    Some(Stores { directory, indexes })
}

// The index of a store of this size with so many packets.
fn index_of(alloc: Global, size: u32, count: u32) -> Option<Index> {
    if !(1..=100_000).contains(&size) {
        return None;
    }
    let mut index = Index::new(alloc, size, 0).ok()?;
    for stamp in 1..=u64::from(count) {
        let fits = index.len() < index.size();
        if !fits || (index.len() > 0 && index.entry(index.len() - 1).stamp > stamp) {
            return None;
        }
        index.push(Entry {
            stamp,
            block: 7,
            page: 0,
            length: 20,
        });
    }
    Some(index)
}

// What `check` answers, if its contract allows the view.
pub(crate) fn answer(
    stores: &Stores,
    blocks: u32,
    instruction: &Instruction,
) -> Option<Result<(), Refusal>> {
    let view = View {
        directory: &stores.directory,
        indexes: &stores.indexes,
        blocks,
    };
    let allowed = view.indexes.len() == view.directory.len() as usize
        && (16..=512).contains(&blocks)
        && view.directory.reserved() + 8 <= blocks;
    if !allowed {
        return None;
    }
    Some(check(&view, instruction))
}

// Each of these instructions has its answer on the stores of `rows`, on a device of so many blocks.
pub(crate) fn all_answer(
    alloc: Global,
    blocks: u32,
    cases: &[(Instruction, Result<(), Refusal>)],
) -> bool {
    let Some(stores) = stores_of(alloc, &rows()) else {
        return false;
    };
    for (instruction, want) in cases {
        if answer(&stores, blocks, instruction) != Some(*want) {
            return false;
        }
    }
    true
}

// Instructions by their numbers in the order of their fields; what is created is circular.

pub(crate) fn start_range(store: u16, t1: u64, t2: u64) -> Instruction {
    Instruction::StartRange { store, t1, t2 }
}

pub(crate) fn create(store: u16, size: u32, channel: u8) -> Instruction {
    let kind = Circular;
    Instruction::Create {
        store,
        kind,
        size,
        channel,
    }
}

pub(crate) fn copy(from: u16, to: u16, t1: u64, t2: u64) -> Instruction {
    Instruction::Copy { from, to, t1, t2 }
}

pub(crate) fn resize(store: u16, size: u32) -> Instruction {
    Instruction::Resize { store, size }
}

pub(crate) fn set_channel(store: u16, channel: u8) -> Instruction {
    Instruction::Channel { store, channel }
}
