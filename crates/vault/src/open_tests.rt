// What no clause says: that images open at all, and what breaks each of the format's conditions.
use super::*;
use crate::image_writer::{BLOCK, HALVES, Patch, device, device_with};
use board::{Board, CallKind, MemBoard};
use std::alloc::Global;
use std::test::Fail;
use store_policy::View;

// Two octets of an image that are changed, and what that breaks.
type Broken = (&'static str, Patch, Patch);

// Of the roots, the checkpoint's length and its text.
const TEXT: usize = HALVES[0] + 4;

const JOURNALS: [Broken; 15] = [
    ("another name", (0, 0), (65_536, 0)),
    ("another version", (8, 2), (65_544, 2)),
    ("17 blocks", (12, 17), (65_548, 17)),
    ("another half", (20, 1), (65_556, 1)),
    ("no text", (HALVES[0] + 3, 0), (TEXT, 0)),
    ("an octet of text more", (HALVES[0] + 3, 150), (TEXT, 0)),
    ("too many reports", (TEXT + 6, 64), (TEXT, 0)),
    ("a flag without meaning", (TEXT + 18, 19), (TEXT, 0)),
    ("no channel", (TEXT + 17, 0), (TEXT, 0)),
    ("more packets than pages", (TEXT + 16, 1), (TEXT, 0)),
    ("an identifier twice", (TEXT + 54, 1), (TEXT, 0)),
    ("too many blocks reserved", (TEXT + 58, 5), (TEXT, 0)),
    ("a block of the journal", (TEXT + 48, 6), (TEXT, 0)),
    ("a block behind the device", (TEXT + 48, 16), (TEXT, 0)),
    ("blocks and no packet", (TEXT + 26, 0), (TEXT + 30, 0)),
];

// Of the rows and the records.
const RECORDS: [Broken; 7] = [
    ("packets and no block", (TEXT + 69, 1), (TEXT, 0)),
    ("a block that begins late", (TEXT + 52, 7), (TEXT, 0)),
    ("another number", (BLOCK + 265, 8), (TEXT, 0)),
    ("a packet of version 1", (BLOCK + 528, 40), (TEXT, 0)),
    ("a stamp that falls", (BLOCK + 517, 3), (TEXT, 0)),
    ("a stamp past the time", (BLOCK + 517, 10), (TEXT, 0)),
    ("no dead record", (BLOCK + 9, 4), (TEXT, 0)),
];

// Whether a device holds a table; None if it was not read.
fn holds(alloc: Global, mut board: MemBoard) -> Option<bool> {
    match Vault::open(alloc, &mut board) {
        Ok(_) => Some(true),
        Err(OpenFault::NotHeld) => Some(false),
        Err(_) => None,
    }
}

// Whether it does with two octets changed.
fn holds_with(alloc: Global, first: Patch, second: Patch) -> Result<Option<bool>, Fail> {
    let board = device(alloc, [0; 3], [true, false], &[first, second])?;
    Ok(holds(alloc, board))
}

#[test]
fn a_blank_device_holds_no_table(rt: HostRuntime) -> Result<(), Fail> {
    let mut board = MemBoard::new(rt.alloc(), 16)?;
    let opened = Vault::open(rt.alloc(), &mut board);
    assert!(rt; matches!(opened, Err(OpenFault::NotHeld)));
    assert_eq!(rt; board.count(CallKind::Read), 3);
    Ok(())
}

#[test]
fn a_formatted_device_has_one_empty_store(rt: HostRuntime) -> Result<(), Fail> {
    let mut board = MemBoard::new(rt.alloc(), 16)?;
    Vault::format(&mut board)?;
    let Ok(vault) = Vault::open(rt.alloc(), &mut board) else {
        panic!(rt; "not opened");
    };
    let View {
        directory,
        indexes,
        blocks,
    } = vault.view();
    assert_eq!(rt; (directory.len(), indexes.len(), blocks), (1, 1, 16));
    assert_eq!(rt; (directory.now(), directory.reports()), (0, 0));
    assert_eq!(rt; (vault.pending(), vault.journal_room()), (0, 0));
    if directory.len() > 0 {
        assert!(rt; !vault.stale(0));
    }
    Ok(())
}

#[test]
fn an_image_opens_with_its_stores(rt: HostRuntime) -> Result<(), Fail> {
    let mut board = device(rt.alloc(), [0; 3], [true, false], &[])?;
    let Ok(vault) = Vault::open(rt.alloc(), &mut board) else {
        panic!(rt; "not opened");
    };
    assert!(rt; vault.is_open());
    let View {
        directory,
        indexes,
        blocks,
    } = vault.view();
    assert_eq!(rt; (directory.now(), directory.reports()), (9, 7));
    let mut counts = [9; 2];
    for (index, count) in indexes.iter().zip(counts.iter_mut()) {
        *count = index.len();
    }
    assert_eq!(rt; (indexes.len(), blocks, counts), (2, 16, [2, 0]));
    if directory.len() == 2 {
        assert_eq!(rt; (vault.stale(0), vault.stale(1)), (true, false));
    }
    Ok(())
}

#[test]
fn each_half_and_a_split_are_opened(rt: HostRuntime) -> Result<(), Fail> {
    // the generations, which halves have a checkpoint, and whether there is a table
    let cases = [
        ([0, 0, 0], [true, false], true),
        ([1, 1, 1], [false, true], true),
        ([1, 1, 1], [true, false], false),
        ([0, 0, 1], [true, false], true),
        ([0, 3, 1], [true, true], true),
        ([0, 3, 1], [true, false], false),
        ([0, 3, 1], [false, true], false),
    ];
    for (generations, halves, held) in cases {
        let board = device(rt.alloc(), generations, halves, &[])?;
        let found = holds(rt.alloc(), board);
        assert_eq!(rt; found, Some(held), "{generations:?}");
    }
    Ok(())
}

#[test]
fn each_condition_of_a_journal_counts(rt: HostRuntime) -> Result<(), Fail> {
    for (name, first, second) in JOURNALS {
        let found = holds_with(rt.alloc(), first, second)?;
        assert_eq!(rt; found, Some(false), "{name}");
    }
    Ok(())
}

#[test]
fn each_condition_of_records_counts(rt: HostRuntime) -> Result<(), Fail> {
    for (name, first, second) in RECORDS {
        let found = holds_with(rt.alloc(), first, second)?;
        assert_eq!(rt; found, Some(false), "{name}");
    }
    Ok(())
}

#[test]
fn each_entry_is_spelled_and_fits(rt: HostRuntime) -> Result<(), Fail> {
    // an entry's text, and whether there is a table
    let cases: [(&[u8], bool); 6] = [
        (&[1, 0, 0, 0, 0, 0, 20, 0, 8], true),
        // the time falls behind the last packet's
        (&[1, 0, 0, 0, 0, 0, 8, 0, 8], false),
        // no store of this identifier
        (&[3, 0, 9], false),
        (&[9], false),
        (&[1, 0, 0], false),
        // a length that is not lawful
        (&[], false),
    ];
    for (text, held) in cases {
        let board = device_with(rt.alloc(), text)?;
        assert_eq!(rt; holds(rt.alloc(), board), Some(held), "{text:?}");
    }
    Ok(())
}

#[test]
fn each_read_that_fails_is_told(rt: HostRuntime) -> Result<(), Fail> {
    let mut board = device(rt.alloc(), [0; 3], [true, false], &[])?;
    assert!(rt; Vault::open(rt.alloc(), &mut board).is_ok());
    let reads = board.count(CallKind::Read);
    assert_eq!(rt; reads, 261);
    for number in [1, 2, 3, 4, 5, 6, 130, 261] {
        let planned = board.count(CallKind::Read).saturating_add(number);
        board.plan(CallKind::Read, planned)?;
        let opened = Vault::open(rt.alloc(), &mut board);
        assert!(rt; matches!(opened, Err(OpenFault::Flash)), "read {number}");
        assert!(rt; Vault::open(rt.alloc(), &mut board).is_ok());
    }
    Ok(())
}
