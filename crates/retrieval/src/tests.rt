// Which store is served, on a directory of three.

use crate::{Pick, after_sent, next_of};
use control_defs::StoreKind;
use std::alloc::Global;
use store_directory::{Change, Directory, Row};

// A store of 64 pages with nine packets.
fn row(identifier: u16, open_on: bool, behind: u32, range: Option<(u32, u32)>) -> Row {
    Row {
        identifier,
        kind: StoreKind::Circular,
        size: 64,
        channel: 3,
        storage: true,
        open_on,
        told: false,
        first: 0,
        count: 9,
        behind,
        range,
    }
}

// The pick in a directory of these stores; none where it could not be made.
fn pick_among(alloc: Global, rows: &[Row]) -> Option<Pick> {
    let mut directory = Directory::new(alloc).ok()?;
    for row in rows {
        directory.apply(alloc, &Change::Put(*row)).ok()?;
    }
    next_of(&directory)
}

#[test]
fn a_later_range_goes_before_an_earlier_open_retrieval(rt: HostRuntime) {
    let open = row(1, true, 4, None);
    let passed = row(2, true, 9, None);
    let range = row(3, false, 0, Some((5, 7)));
    let of_range = Some(Pick {
        at: 2,
        position: 5,
        channel: 3,
        range: true,
    });
    let of_open = Some(Pick {
        at: 1,
        position: 4,
        channel: 3,
        range: false,
    });
    assert!(rt; pick_among(rt.alloc(), &[open, passed, range]) == of_range);
    assert!(rt; pick_among(rt.alloc(), &[passed, open]) == of_open);
    assert!(rt; pick_among(rt.alloc(), &[passed, row(4, false, 0, None)]).is_none());
}

// The last packet of a range.
const LAST: Row = Row {
    identifier: 1,
    kind: StoreKind::Bounded,
    size: 64,
    channel: 3,
    storage: true,
    open_on: true,
    told: false,
    first: 0,
    count: 9,
    behind: 8,
    range: Some((5, 6)),
};

// The row of the only store behind a grant; none where it sends nothing, or could not be made.
fn after_grant(alloc: Global, row: Row) -> Option<Row> {
    let mut directory = Directory::new(alloc).ok()?;
    directory.apply(alloc, &Change::Put(row)).ok()?;
    let pick = next_of(&directory)?;
    Some(after_sent(directory.row(pick.at), &pick))
}

#[test]
fn a_range_ends_behind_its_last_packet(rt: HostRuntime) {
    let row = after_grant(rt.alloc(), LAST);
    assert!(rt; row.is_some_and(|row| row.range.is_none() && row.behind == 8));
}
