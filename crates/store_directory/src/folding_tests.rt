// Texts of entries and of checkpoints, whole, cut, and with an octet changed.

use crate::change::Change;
use crate::directory::Directory;
use crate::directory_tests::{LINKS, ROW, links_of, make, sized};
use crate::fault::FoldFault;
use control_defs::Pattern;
use std::alloc::Global;
use std::test::Fail;

/// The clock at 16 with one report, block 7 for store 1 from record 0 on, and the row that counts one
/// record. The changes begin at 0, 9 and 20.
const ENTRY: [u8; 50] = [
    1, 0, 0, 0, 0, 0, 16, 0, 1, 6, 0, 1, 0, 1, 0, 7, 0, 0, 0, 0, 2, 0, 1, 0, 0, 0, 0, 64, 1, 3, 0,
    0, 0, 0, 0, 0, 0, 1, 0, 0, 0, 0, 0, 0, 0, 0, 0, 0, 0, 0,
];

fn one_store(alloc: Global) -> Result<Directory, Fail> {
    let mut directory = Directory::new(alloc)?;
    make(&mut directory, alloc, &Change::Put(ROW))?;
    Ok(directory)
}

/// How many of the changes before this octet are whole.
fn begin_of(octet: usize) -> u32 {
    if octet < 9 {
        0
    } else if octet < 20 {
        9
    } else {
        20
    }
}

#[test]
fn a_cut_entry_is_made_up_to_its_last_whole_change(rt: HostRuntime) -> Result<(), Fail> {
    for long in 0..51 {
        let mut directory = one_store(rt.alloc())?;
        let outcome = directory.fold(rt.alloc(), &ENTRY[..long]);
        if long == 0 || long == 9 || long == 20 || long == 50 {
            assert_eq!(rt; outcome, Ok(()));
        } else {
            assert_eq!(rt; outcome, Err(FoldFault::Spelling { at: begin_of(long) }));
        }
        assert!(rt; (directory.reports() == 1) == (long >= 9));
        assert!(rt; links_of(&directory, 1).is_empty() == (long < 20));
    }
    Ok(())
}

/// What stands where an entry with 255 at this octet is folded.
fn fault_of_entry(octet: usize) -> Option<FoldFault> {
    let at = begin_of(octet);
    match octet {
        0 | 9 | 12 | 13 | 20 | 23 | 29 | 42..=49 => Some(FoldFault::Spelling { at }),
        7 | 10 | 11 | 24 | 25 | 28 | 34..=41 => Some(FoldFault::Unfit { at }),
        _ => None,
    }
}

#[test]
fn an_entry_with_another_octet_has_its_answer(rt: HostRuntime) -> Result<(), Fail> {
    for octet in 0..50 {
        let mut entry = ENTRY;
        entry[octet] = 255;
        let mut directory = one_store(rt.alloc())?;
        let outcome = directory.fold(rt.alloc(), &entry);
        match fault_of_entry(octet) {
            Some(fault) => assert_eq!(rt; outcome, Err(fault)),
            None => assert_eq!(rt; outcome, Ok(())),
        }
    }
    Ok(())
}

#[test]
fn what_stands_behind_the_first_fault_is_not_made(rt: HostRuntime) -> Result<(), Fail> {
    // Store 3 is to go, which does not stand, and then store 1.
    let mut directory = one_store(rt.alloc())?;
    let outcome = directory.fold(rt.alloc(), &[3, 0, 3, 3, 0, 1]);
    assert_eq!(rt; outcome, Err(FoldFault::Unfit { at: 0 }));
    assert!(rt; directory.len() == 1);
    let outcome = directory.fold(rt.alloc(), &[3, 0, 1, 3, 0, 3]);
    assert_eq!(rt; outcome, Err(FoldFault::Unfit { at: 3 }));
    assert!(rt; directory.len() == 0);
    Ok(())
}

/// The checkpoint after a format of 16 blocks.
fn first_checkpoint() -> [u8; 111] {
    let mut text = [0; 111];
    text[9] = 1;
    text[11] = 1;
    text[16] = 64;
    text[17] = 1;
    text[18] = 3;
    text[39] = 1;
    text
}

#[test]
fn the_checkpoint_of_a_format_is_read(rt: HostRuntime) -> Result<(), Fail> {
    let mut wear = [9; 16];
    let directory = Directory::read_checkpoint(rt.alloc(), &first_checkpoint(), &mut wear)?;
    assert!(rt; wear == [0; 16]);
    assert!(rt; directory.now() == 0 && directory.reports() == 0);
    assert!(rt; directory.forward().list().is_empty());
    assert!(rt; directory.len() == 1);
    if directory.len() == 1 {
        assert!(rt; *directory.row(0) == ROW);
        assert!(rt; directory.patterns(0).list() == [Pattern::Every].as_slice());
        assert!(rt; directory.links(0).is_empty());
    }
    Ok(())
}

#[test]
fn a_cut_checkpoint_is_none(rt: HostRuntime) {
    let text = first_checkpoint();
    let mut wear = [0; 16];
    for long in 0..111 {
        match Directory::read_checkpoint(rt.alloc(), &text[..long], &mut wear) {
            Err(fault) => assert_eq!(rt; fault, FoldFault::Spelling { at: 0 }),
            Ok(_) => assert!(rt; false),
        }
    }
}

/// Why a checkpoint of a format with 255 at this octet gives no directory.
fn fault_of_checkpoint(octet: usize) -> Option<FoldFault> {
    match octet {
        8 | 9 | 12 | 18 | 31..=46 => Some(FoldFault::Spelling { at: 0 }),
        6 | 13 | 14 | 17 | 23..=30 => Some(FoldFault::Unfit { at: 0 }),
        _ => None,
    }
}

#[test]
fn a_checkpoint_with_another_octet_has_its_answer(rt: HostRuntime) {
    let mut wear = [0; 16];
    for octet in 0..111 {
        let mut text = first_checkpoint();
        text[octet] = 255;
        match Directory::read_checkpoint(rt.alloc(), &text, &mut wear) {
            Err(fault) => assert!(rt; Some(fault) == fault_of_checkpoint(octet)),
            Ok(_) => assert!(rt; fault_of_checkpoint(octet).is_none()),
        }
    }
}

/// 32 stores, each with 64 patterns, the first with three blocks.
fn full_directory(alloc: Global) -> Result<Directory, Fail> {
    let mut directory = Directory::new(alloc)?;
    for store in 1..33 {
        make(&mut directory, alloc, &Change::Put(sized(store, 64)))?;
        for apid in 0..64 {
            let pattern = Pattern::Service(apid, 3);
            let types = Change::Types {
                store,
                add: true,
                pattern,
            };
            make(&mut directory, alloc, &types)?;
        }
    }
    let links = Change::Links {
        store: 1,
        links: &LINKS,
    };
    make(&mut directory, alloc, &links)?;
    Ok(directory)
}

#[test]
fn a_full_directory_is_read_back_from_its_checkpoint(rt: HostRuntime) -> Result<(), Fail> {
    let directory = full_directory(rt.alloc())?;
    let mut text = [7; 20_476];
    let mut wear = [3; 16];
    let long = directory.write_checkpoint(&wear, &mut text) as usize;
    // The head, 32 stores of 352 octets, three links, and 16 counts.
    assert_eq!(rt; long, 10 + 32 * 352 + 18 + 64);
    assert!(rt; text[long] == 7);
    wear[5] = 0;
    let read = Directory::read_checkpoint(rt.alloc(), &text[..long], &mut wear)?;
    assert!(rt; wear == [3; 16]);
    assert!(rt; read.len() == 32 && read.reserved() == 96);
    assert!(rt; links_of(&read, 1) == LINKS.as_slice());
    let mut again = [0; 20_476];
    assert!(rt; read.write_checkpoint(&wear, &mut again) as usize == long);
    assert!(rt; again[..long] == text[..long]);
    Ok(())
}
