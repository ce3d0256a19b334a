// Changes of a directory, and why they do not fit.
ghost use Rattle.std.specs.Prelude.{IsTrue};
ghost use Rattle.control_defs.specs.Patterns.{IsPattern};
ghost use Rattle.store_directory.specs.Kept.{IsChange, change_of};

use crate::change::Change;
use crate::directory::Directory;
use crate::fault::ApplyFault;
use crate::row::Row;
use control_defs::{Pattern, StoreKind};
use record_view::Link;
use std::alloc::Global;
use std::test::Fail;

pub(crate) const ROW: Row = Row {
    identifier: 1,
    kind: StoreKind::Circular,
    size: 64,
    channel: 1,
    storage: true,
    open_on: true,
    told: false,
    first: 0,
    count: 0,
    behind: 0,
    range: None,
};

pub(crate) const LINKS: [Link; 3] = [
    Link { block: 9, first: 0 },
    Link { block: 8, first: 3 },
    Link { block: 7, first: 6 },
];

pub(crate) fn sized(identifier: u16, size: u32) -> Row {
    Row {
        identifier,
        size,
        ..ROW
    }
}

fn holding(first: u32, count: u32) -> Row {
    Row {
        first,
        count,
        ..ROW
    }
}

fn is_pattern(pattern: &Pattern) -> bool
    ensures { IsTrue result → IsPattern pattern.now }
{
    match *pattern {
        Pattern::Every => true,
        Pattern::App(apid) | Pattern::Service(apid, _) | Pattern::Kind(apid, _, _) => apid <= 2047,
    }
}

// Whether the numbers of a change are within their ranges.
fn is_in_range(change: &Change<'_>) -> bool
    ensures { IsTrue result → IsChange (change_of change.now) }
{
    match change {
        Change::Clock { now, .. } => *now < 1 << 48,
        Change::Forward { pattern, .. } | Change::Types { pattern, .. } => is_pattern(pattern),
        _ => true,
    }
}

pub(crate) fn make(
    directory: &mut Directory,
    alloc: Global,
    change: &Change<'_>,
) -> Result<(), ApplyFault> {
    if !is_in_range(change) {
        return Err(ApplyFault::NoMemory);
    }
    directory.apply(alloc, change)
}

/// Store 1, of three blocks and nine records, and store 2, which holds none.
pub(crate) fn two_stores(alloc: Global) -> Result<Directory, Fail> {
    let mut directory = Directory::new(alloc)?;
    for change in [
        Change::Put(ROW),
        Change::Put(sized(2, 240)),
        Change::Types {
            store: 1,
            add: true,
            pattern: Pattern::App(7),
        },
        Change::Links {
            store: 1,
            links: &LINKS,
        },
        Change::Put(holding(0, 9)),
        Change::Forward {
            add: true,
            pattern: Pattern::Service(100, 3),
        },
        Change::Clock {
            now: 16,
            reports: 1,
        },
    ] {
        make(&mut directory, alloc, &change)?;
    }
    Ok(directory)
}

pub(crate) fn links_of(directory: &Directory, store: u16) -> &[Link] {
    match directory.find(store) {
        Some(at) => directory.links(at),
        None => &[],
    }
}

#[test]
fn changes_are_made_where_they_fit(rt: HostRuntime) -> Result<(), Fail> {
    let directory = two_stores(rt.alloc())?;
    assert!(rt; directory.len() == 2);
    assert!(rt; directory.now() == 16 && directory.reports() == 1);
    assert!(rt; directory.forward().list() == [Pattern::Service(100, 3)].as_slice());
    assert!(rt; directory.find(1) == Some(0));
    assert!(rt; directory.find(2) == Some(1));
    assert!(rt; directory.find(3).is_none());
    assert!(rt; directory.reserved() == 7);
    if directory.len() == 2 {
        assert!(rt; *directory.row(0) == holding(0, 9));
        assert!(rt; directory.patterns(0).list() == [Pattern::App(7)].as_slice());
        assert!(rt; directory.links(0) == LINKS.as_slice());
        assert!(rt; *directory.row(1) == sized(2, 240));
        assert!(rt; directory.links(1).is_empty());
    }
    Ok(())
}

#[test]
fn links_without_a_record_of_the_row_leave_the_front(rt: HostRuntime) -> Result<(), Fail> {
    // The first record and how many there are, and the links that are left.
    for (first, count, left) in [
        (0, 9, 3),
        (2, 7, 3),
        (3, 6, 2),
        (5, 4, 2),
        (6, 3, 1),
        (8, 1, 1),
        (9, 0, 0),
        (0, 0, 0),
    ] {
        let mut directory = two_stores(rt.alloc())?;
        make(
            &mut directory,
            rt.alloc(),
            &Change::Put(holding(first, count)),
        )?;
        let links = links_of(&directory, 1);
        assert_eq!(rt; links.len(), left);
        assert!(rt; links == &LINKS[3 - left..]);
    }
    Ok(())
}

#[test]
fn a_swap_replaces_the_last_link(rt: HostRuntime) -> Result<(), Fail> {
    let mut directory = two_stores(rt.alloc())?;
    let swap = Change::Swap {
        store: 1,
        block: 12,
        first: 6,
    };
    make(&mut directory, rt.alloc(), &swap)?;
    let last = Link {
        block: 12,
        first: 6,
    };
    assert!(rt; links_of(&directory, 1) == [LINKS[0], LINKS[1], last].as_slice());
    Ok(())
}

#[test]
fn a_store_that_goes_leaves_the_others_in_order(rt: HostRuntime) -> Result<(), Fail> {
    let mut directory = two_stores(rt.alloc())?;
    make(&mut directory, rt.alloc(), &Change::Put(sized(3, 1)))?;
    make(&mut directory, rt.alloc(), &Change::Gone(1))?;
    assert!(rt; directory.len() == 2);
    assert!(rt; directory.find(2) == Some(0) && directory.find(3) == Some(1));
    make(&mut directory, rt.alloc(), &Change::Put(ROW))?;
    assert!(rt; directory.find(1) == Some(2));
    assert!(rt; links_of(&directory, 1).is_empty());
    Ok(())
}

#[test]
fn a_change_that_does_not_fit_is_refused(rt: HostRuntime) -> Result<(), Fail> {
    let five = [LINKS[0]; 5];
    let rows = [
        sized(3, 0),
        sized(3, 100_001),
        Row { channel: 0, ..ROW },
        Row { channel: 8, ..ROW },
        holding(0, 65),
        Row {
            count: 9,
            behind: 10,
            ..ROW
        },
        Row {
            count: 9,
            range: Some((4, 4)),
            ..ROW
        },
        Row {
            count: 9,
            range: Some((4, 10)),
            ..ROW
        },
    ];
    for row in rows {
        let mut directory = two_stores(rt.alloc())?;
        assert_eq!(rt;
            make(&mut directory, rt.alloc(), &Change::Put(row)),
            Err(ApplyFault::Unfit)
        );
    }
    let pattern = Pattern::App(7);
    for change in [
        Change::Clock {
            now: 0,
            reports: 16_384,
        },
        Change::Gone(3),
        Change::Forward {
            add: false,
            pattern,
        },
        Change::Types {
            store: 3,
            add: true,
            pattern,
        },
        Change::Types {
            store: 2,
            add: false,
            pattern,
        },
        Change::Links {
            store: 3,
            links: &LINKS,
        },
        Change::Links {
            store: 2,
            links: &[],
        },
        Change::Links {
            store: 1,
            links: &LINKS[..1],
        },
        Change::Links {
            store: 2,
            links: &five,
        },
        Change::Swap {
            store: 3,
            block: 9,
            first: 0,
        },
        Change::Swap {
            store: 2,
            block: 9,
            first: 0,
        },
    ] {
        let mut directory = two_stores(rt.alloc())?;
        assert_eq!(rt;
            make(&mut directory, rt.alloc(), &change),
            Err(ApplyFault::Unfit)
        );
        assert!(rt; directory.len() == 2 && directory.now() == 16);
        assert!(rt; links_of(&directory, 1) == LINKS.as_slice());
    }
    Ok(())
}

#[test]
fn reservations_end_at_504_blocks(rt: HostRuntime) -> Result<(), Fail> {
    // Seven blocks are reserved; 19,680 pages reserve 85 of them, and 99,840 pages 419.
    let mut directory = two_stores(rt.alloc())?;
    make(&mut directory, rt.alloc(), &Change::Put(sized(3, 99_840)))?;
    assert!(rt; directory.reserved() == 426);
    let more = Change::Put(sized(4, 18_240));
    assert_eq!(rt;
        make(&mut directory, rt.alloc(), &more),
        Err(ApplyFault::Unfit)
    );
    make(&mut directory, rt.alloc(), &Change::Put(sized(4, 18_239)))?;
    assert!(rt; directory.reserved() == 504);
    let larger = Change::Put(sized(2, 480));
    assert_eq!(rt;
        make(&mut directory, rt.alloc(), &larger),
        Err(ApplyFault::Unfit)
    );
    make(&mut directory, rt.alloc(), &Change::Put(sized(2, 239)))?;
    assert!(rt; directory.reserved() == 503);
    Ok(())
}

#[test]
fn a_33rd_store_and_a_65th_pattern_do_not_fit(rt: HostRuntime) -> Result<(), Fail> {
    let mut directory = Directory::new(rt.alloc())?;
    for store in 1..33 {
        make(&mut directory, rt.alloc(), &Change::Put(sized(store, 1)))?;
    }
    let one_more = Change::Put(sized(33, 1));
    assert_eq!(rt;
        make(&mut directory, rt.alloc(), &one_more),
        Err(ApplyFault::Unfit)
    );
    make(&mut directory, rt.alloc(), &Change::Put(sized(32, 2)))?;
    for apid in 0..64 {
        let pattern = Pattern::App(apid);
        make(
            &mut directory,
            rt.alloc(),
            &Change::Types {
                store: 5,
                add: true,
                pattern,
            },
        )?;
    }
    let pattern = Pattern::App(64);
    let types = Change::Types {
        store: 5,
        add: true,
        pattern,
    };
    assert_eq!(rt;
        make(&mut directory, rt.alloc(), &types),
        Err(ApplyFault::Unfit)
    );
    let every = Change::Types {
        store: 5,
        add: true,
        pattern: Pattern::Every,
    };
    make(&mut directory, rt.alloc(), &every)?;
    make(&mut directory, rt.alloc(), &types)?;
    Ok(())
}
