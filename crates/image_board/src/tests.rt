// What no clause says of a file: which octets it holds, and which failures of the system are faults.

use crate::{FileBoard, blocks_of, make_blank};
use board::{Board, Failed};
use std::fs::{self, File, OpenOptions};
use std::io;
use std::os::unix::fs::FileExt;
use std::test::Fail;

/// The least device: 16 blocks of 65,536 octets.
const LEAST: u64 = 1_048_576;

// Opens a file that is to be read and written, and makes it if it is absent.
fn file_at(rt: &HostRuntime, path: &str) -> io::Result<File> {
    OpenOptions::new()
        .read(true)
        .write(true)
        .create(true)
        .open(rt, path)
}

// The octets of a file from an offset on.
fn octets_at(file: &File, offset: u64) -> io::Result<[u8; 4]> {
    let mut octets = [0; 4];
    file.read_exact_at(&mut octets, offset)?;
    Ok(octets)
}

#[test]
fn a_blank_file_holds_255_from_its_first_octet_to_its_last(rt: HostRuntime) -> Result<(), Fail> {
    let path = "image_board_blank";
    let file = file_at(&rt, path)?;
    file.set_len(LEAST + 100)?;
    make_blank(&file, 16)?;
    assert_eq!(rt; file.metadata()?.len(), LEAST);
    for offset in [0, 4_094, 65_534, 524_288, LEAST - 4] {
        assert_eq!(rt; octets_at(&file, offset)?, [255; 4], "at {offset}");
    }
    fs::remove_file(&rt, path)?;
    Ok(())
}

#[test]
fn a_page_lies_at_its_octets(rt: HostRuntime) -> Result<(), Fail> {
    let path = "image_board_pages";
    let file = file_at(&rt, path)?;
    make_blank(&file, 16)?;
    let mut board = FileBoard::new(file, 16, Vec::new(rt.alloc()));
    let seen = file_at(&rt, path)?;
    let page = [7; 256];
    board.program(3, 7, &page)?;
    board.program(15, 255, &page)?;
    board.program(4, 0, &page)?;
    // (3 * 256 + 7) * 256 = 198,400, and the octets on either side
    assert_eq!(rt; octets_at(&seen, 198_398)?, [255, 255, 7, 7]);
    assert_eq!(rt; octets_at(&seen, 198_654)?, [7, 7, 255, 255]);
    assert_eq!(rt; octets_at(&seen, LEAST - 258)?, [255, 255, 7, 7]);
    assert_eq!(rt; octets_at(&seen, LEAST - 4)?, [7; 4]);
    let mut into = [0; 256];
    board.read_page(3, 7, &mut into)?;
    assert_eq!(rt; into, page);
    // The block from octet 196,608 to 262,143.
    seen.write_all_at(&[0; 4], 262_140)?;
    seen.write_all_at(&[0; 2], 196_606)?;
    board.erase(3)?;
    assert_eq!(rt; octets_at(&seen, 198_400)?, [255; 4]);
    assert_eq!(rt; octets_at(&seen, 196_606)?, [0, 0, 255, 255]);
    assert_eq!(rt; octets_at(&seen, 262_142)?, [255, 255, 7, 7]);
    board.barrier()?;
    assert!(rt; !board.is_broken());
    assert_eq!(rt; seen.metadata()?.len(), LEAST);
    fs::remove_file(&rt, path)?;
    Ok(())
}

#[test]
fn a_page_beyond_the_end_of_the_file_is_a_fault(rt: HostRuntime) -> Result<(), Fail> {
    let path = "image_board_short";
    let file = file_at(&rt, path)?;
    file.set_len(356)?;
    let mut board = FileBoard::new(file, 16, Vec::new(rt.alloc()));
    let mut into = [9; 256];
    assert_eq!(rt; board.read_page(0, 0, &mut into), Ok(()));
    assert_eq!(rt; into, [0; 256]);
    assert_eq!(rt; board.read_page(0, 1, &mut into), Err(Failed));
    assert_eq!(rt; board.read_page(9, 0, &mut into), Err(Failed));
    fs::remove_file(&rt, path)?;
    Ok(())
}

#[test]
fn a_file_that_cannot_be_written_is_a_fault(rt: HostRuntime) -> Result<(), Fail> {
    let path = "image_board_read_only";
    make_blank(&file_at(&rt, path)?, 16)?;
    let mut board = FileBoard::new(File::open(&rt, path)?, 16, Vec::new(rt.alloc()));
    let mut into = [0; 256];
    assert_eq!(rt; board.program(0, 0, &[0; 256]), Err(Failed));
    assert_eq!(rt; board.erase(0), Err(Failed));
    assert_eq!(rt; board.read_page(0, 0, &mut into), Ok(()));
    assert_eq!(rt; into, [255; 256]);
    fs::remove_file(&rt, path)?;
    Ok(())
}

// Of this file the system syncs nothing, takes each write, and reads zeros.
#[test]
fn after_a_sync_that_failed_nothing_is_written(rt: HostRuntime) -> Result<(), Fail> {
    let file = file_at(&rt, "/dev/zero")?;
    let mut board = FileBoard::new(file, 16, Vec::new(rt.alloc()));
    let mut into = [9; 256];
    assert_eq!(rt; board.program(0, 0, &[1; 256]), Ok(()));
    assert_eq!(rt; board.erase(1), Ok(()));
    assert!(rt; !board.is_broken());
    for _ in 0..2u8 {
        assert_eq!(rt; board.barrier(), Err(Failed));
        assert!(rt; board.is_broken());
        assert_eq!(rt; board.program(0, 0, &[1; 256]), Err(Failed));
        assert_eq!(rt; board.erase(1), Err(Failed));
    }
    assert_eq!(rt; board.read_page(0, 0, &mut into), Ok(()));
    assert_eq!(rt; into, [0; 256]);
    assert_eq!(rt; board.send(b"still"), Ok(()));
    Ok(())
}

#[test]
fn the_length_of_a_file_says_its_blocks(rt: HostRuntime) {
    let rows = [
        (0, None),
        (65_536 * 15, None),
        (65_536 * 16 - 1, None),
        (65_536 * 16, Some(16)),
        (65_536 * 16 + 1, None),
        (65_536 * 64, Some(64)),
        (65_536 * 512, Some(512)),
        (65_536 * 513, None),
        (65_536 * 4_294_967_312, None),
        (u64::MAX, None),
    ];
    for (octets, blocks) in rows {
        assert_eq!(rt; blocks_of(octets), blocks, "{octets} octets");
    }
}
