// Plans of puts, by rows written out by hand.

use super::*;
use control_defs::StoreKind::{self, Bounded, Circular};
use std::alloc::{AllocError, Global};
use std::test::Fail;
use store_directory::Row;
use time_index::{Entry, Index};

// The index of a store of so many pages with these packets, each by its length in octets.
fn index_of(alloc: Global, size: u32, lengths: &[u16]) -> Result<Option<Index>, AllocError> {
    if !(1..=100_000).contains(&size) {
        return Ok(None);
    }
    let mut index = Index::new(alloc, size, 0)?;
    for length in lengths {
        let fits = index.len() < index.size();
        if !fits || (index.len() > 0 && index.entry(index.len() - 1).stamp > 5) {
            return Ok(None);
        }
        index.push(Entry {
            stamp: 5,
            block: 7,
            page: 0,
            length: *length,
        });
    }
    Ok(Some(index))
}

fn row_of(kind: StoreKind, size: u32, count: u32) -> Row {
    Row {
        identifier: 2,
        kind,
        size,
        channel: 2,
        storage: true,
        open_on: false,
        told: false,
        first: 0,
        count,
        behind: 0,
        range: None,
    }
}

// The plan of a packet of so many octets, if the contract of `plan_put` allows it.
fn plan(row: &Row, index: &Index, length: u32) -> Option<Result<u32, Full>> {
    let together = index.first() == row.first
        && index.len() == row.count
        && index.size() == row.size;
    if !together || index.pages() > index.size() || length > 65_542 {
        return None;
    }
    Some(plan_put(row, index, length))
}

#[test]
fn the_fewest_packets_leave(rt: HostRuntime) -> Result<(), Fail> {
    let three = [4_096, 4_096, 4_096];
    let full = |need, free| Err(Full { need, free });
    let cases: [(StoreKind, u32, &[u16], u32, Result<u32, Full>); 10] = [
        (Circular, 64, &three, 4_080, Ok(1)),
        (Circular, 3, &[20, 20, 20], 300, Ok(2)),
        (Circular, 3, &[20, 20, 20], 20, Ok(1)),
        (Circular, 3, &[300, 20], 20, Ok(1)),
        (Circular, 3, &[20, 20], 20, Ok(0)),
        (Circular, 3, &[20, 20, 20], 4_096, full(17, 0)),
        (Bounded, 2, &[20], 20, Ok(0)),
        (Bounded, 2, &[20, 20], 20, full(1, 0)),
        (Bounded, 64, &three, 4_080, full(16, 13)),
        (Circular, 1, &[], 65_542, full(257, 1)),
    ];
    for (kind, size, lengths, length, want) in cases {
        let index = index_of(rt.alloc(), size, lengths)?;
        let found = index.and_then(|index| plan(&row_of(kind, size, index.len()), &index, length));
        assert!(rt; found == Some(want), "{length} octets into {size} pages");
    }
    Ok(())
}
