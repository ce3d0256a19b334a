// Halves that are filled to their last page, splits, and hostile images.
use crate::script::{Act, add, clock, fill, open_on, perform};
use board::{Board, CallKind, MemBoard};
use meta_journal::format;
use root_vote::{Choice, Root, plant, read_roots};
use std::alloc::Global;
use std::test::Fail;

fn root(generation: u64) -> Root {
    Root {
        generation,
        blocks: 16,
        version: 1,
    }
}

// The time of the directory that a device holds.
fn time_on(alloc: Global, board: &mut MemBoard) -> Result<Option<u64>, Fail> {
    Ok(open_on(alloc, board)?.map(|opened| opened.directory.now()))
}

fn work(board: &MemBoard) -> [u64; 3] {
    [
        board.count(CallKind::Program),
        board.count(CallKind::Erase),
        board.count(CallKind::Barrier),
    ]
}

// The longest entry: 563 changes of the time, then a forward pattern that is added and removed.
fn longest_entry(alloc: Global) -> Result<Vec<u8>, Fail> {
    let mut entry = Vec::new(alloc);
    for _ in 0..563 {
        entry.extend_from_slice(&clock(10))?;
    }
    for number in 0..7 {
        entry.extend_from_slice(&[4, 1 - number % 2, 1, 0, 100, 0, 0])?;
    }
    Ok(entry)
}

// The room after a switch on a formatted device, with the half filled until it is at most `room`;
// then after an entry; and the time that the device holds then.
fn filled_with(alloc: Global, room: u32, entry: &[u8]) -> Result<Option<(u32, u32, u64)>, Fail> {
    let mut board = MemBoard::new(alloc, 16)?;
    format(&mut board)?;
    let Some(mut opened) = open_on(alloc, &mut board)? else {
        return Ok(None);
    };
    if !perform(alloc, &mut board, &mut opened, Act::Switch)?
        || !fill(alloc, &mut board, &mut opened, room)?
    {
        return Ok(None);
    }
    let before = opened.journal.room();
    if !add(alloc, &mut board, &mut opened, entry)? {
        return Ok(None);
    }
    let time = time_on(alloc, &mut board)?;
    Ok(Some((before, opened.journal.room(), time.unwrap_or(0))))
}

#[test]
fn the_longest_entry_fills_a_half_to_its_last_page(rt: HostRuntime) -> Result<(), Fail> {
    let entry = longest_entry(rt.alloc())?;
    assert_eq!(rt; entry.len(), 5116);
    assert_eq!(rt; filled_with(rt.alloc(), 21, &entry)?, Some((21, 0, 10)));
    // less room than the longest entry needs
    assert_eq!(rt; filled_with(rt.alloc(), 20, &clock(10))?, None);
    Ok(())
}

#[test]
fn an_entry_of_one_octet_is_added_and_spells_no_change(rt: HostRuntime) -> Result<(), Fail> {
    assert_eq!(rt; filled_with(rt.alloc(), 511, &[3])?, Some((511, 509, 0)));
    Ok(())
}

// Switches twice; at the second time the program of the middle root fails, and its votes are split.
fn split(alloc: Global) -> Result<MemBoard, Fail> {
    let mut board = MemBoard::new(alloc, 16)?;
    format(&mut board)?;
    board.plan(CallKind::Program, 13)?;
    if let Some(mut opened) = open_on(alloc, &mut board)? {
        if perform(alloc, &mut board, &mut opened, Act::Switch)?
            && perform(alloc, &mut board, &mut opened, Act::Commit(5))?
        {
            perform(alloc, &mut board, &mut opened, Act::Switch)?;
        }
    }
    Ok(board)
}

#[test]
fn a_switch_from_a_split_repairs_the_roots_first(rt: HostRuntime) -> Result<(), Fail> {
    let alloc = rt.alloc();
    let mut board = split(alloc)?;
    assert_eq!(rt;
        read_roots(&mut board)?.choice(),
        Choice::Split {
            first: root(2),
            last: root(1)
        }
    );
    let before = work(&board);
    let mut opened = open_on(alloc, &mut board)?.expect(&rt, "a directory");
    assert_eq!(rt; opened.directory.now(), 5);
    assert!(rt; perform(alloc, &mut board, &mut opened, Act::Switch)?);
    let after = work(&board);
    let spent = [
        after[0].wrapping_sub(before[0]),
        after[1].wrapping_sub(before[1]),
        after[2].wrapping_sub(before[2]),
    ];
    assert_eq!(rt; spent, [6, 7, 13]);
    assert_eq!(rt; read_roots(&mut board)?.choice(), Choice::Agreed(root(3)));
    assert_eq!(rt; time_on(alloc, &mut board)?, Some(5));
    Ok(())
}

#[test]
fn the_generation_behind_the_greatest_is_0(rt: HostRuntime) -> Result<(), Fail> {
    let alloc = rt.alloc();
    let mut board = MemBoard::new(alloc, 16)?;
    format(&mut board)?;
    let mut opened = open_on(alloc, &mut board)?.expect(&rt, "a directory");
    assert!(rt; perform(alloc, &mut board, &mut opened, Act::Switch)?);
    plant(&mut board, root(u64::MAX))?;
    let mut opened = open_on(alloc, &mut board)?.expect(&rt, "a directory");
    assert!(rt; perform(alloc, &mut board, &mut opened, Act::Switch)?);
    assert_eq!(rt; read_roots(&mut board)?.choice(), Choice::Agreed(root(0)));
    assert_eq!(rt; time_on(alloc, &mut board)?, Some(0));
    Ok(())
}

// The octets of a device that was formatted, with a checkpoint of 111 octets in half 0.
fn formatted(alloc: Global) -> Result<Vec<u8>, Fail> {
    let mut board = MemBoard::new(alloc, 16)?;
    format(&mut board)?;
    let mut image = Vec::new(alloc);
    for block in 0..16 {
        for page in 0..256 {
            if block < board.blocks() {
                image.extend_from_slice(board.page(block, page))?;
            }
        }
    }
    Ok(image)
}

// The time that an image holds, with these octets at these offsets.
fn time_with(
    alloc: Global,
    image: &Vec<u8>,
    edits: &[(usize, &[u8])],
) -> Result<Option<u64>, Fail> {
    let mut edited = image.clone()?;
    for (offset, octets) in edits {
        for (place, octet) in octets.iter().enumerate() {
            if let Some(there) = edited.get_mut(offset.wrapping_add(place)) {
                *there = *octet;
            }
        }
    }
    if edited.len() != 1_048_576 {
        return Ok(None);
    }
    time_on(alloc, &mut MemBoard::from_image(alloc, edited)?)
}

const HALF_0: usize = 3 * 65_536;

const HALF_1: usize = 5 * 65_536;

const GATE: [u8; 256] = [0x5a; 256];

// The time at 16 and one report, behind the length 9.
const CLOCK: [u8; 13] = [0, 0, 0, 9, 1, 0, 0, 0, 0, 0, 16, 0, 1];

#[test]
fn roots_of_another_format_or_device_hold_nothing(rt: HostRuntime) -> Result<(), Fail> {
    let alloc = rt.alloc();
    let image = formatted(alloc)?;
    assert_eq!(rt; time_with(alloc, &image, &[])?, Some(0));
    // one page that votes for none
    assert_eq!(rt; time_with(alloc, &image, &[(65_536, &[0])])?, Some(0));
    // version 2, 17 blocks, and the half that holds nothing
    for (octet, value) in [(8, 2), (12, 17), (20, 1)] {
        let octets = [value];
        let edit = octets.as_slice();
        let edits = [
            (octet, edit),
            (65_536 + octet, edit),
            (131_072 + octet, edit),
        ];
        assert_eq!(rt; time_with(alloc, &image, &edits)?, None, "{octet}");
    }
    Ok(())
}

#[test]
fn a_half_that_is_not_whole_holds_nothing(rt: HostRuntime) -> Result<(), Fail> {
    let alloc = rt.alloc();
    let image = formatted(alloc)?;
    let at = HALF_0;
    // a checkpoint's length of 0, of one octet less, and of more than it may have
    for (place, octet) in [(3, 0), (3, 110), (2, 80)] {
        assert_eq!(rt;
            time_with(alloc, &image, &[(at + place, &[octet])])?,
            None,
            "{octet}"
        );
    }
    // an entry, and the same behind a gate that is not open
    assert_eq!(rt;
        time_with(alloc, &image, &[(at + 256, &GATE), (at + 512, &CLOCK)])?,
        Some(16)
    );
    assert_eq!(rt;
        time_with(alloc, &image, &[(at + 256, &GATE[1..]), (at + 512, &CLOCK)])?,
        Some(0)
    );
    // an open gate with a length of 0, and of more than fits
    for length in [[0, 0, 0, 0], [0, 0, 0x13, 0xfd], [255; 4]] {
        let edits = [(at + 256, GATE.as_slice()), (at + 512, length.as_slice())];
        assert_eq!(rt; time_with(alloc, &image, &edits)?, None, "{length:?}");
    }
    // a change that is not spelled, and one that does not fit
    for (place, octet) in [(516, 9), (523, 64)] {
        let octets = [octet];
        let edits = [
            (at + 256, GATE.as_slice()),
            (at + 512, CLOCK.as_slice()),
            (at + place, octets.as_slice()),
        ];
        assert_eq!(rt; time_with(alloc, &image, &edits)?, None, "{place}");
    }
    Ok(())
}

#[test]
fn the_halves_of_a_split_have_to_hold_the_same(rt: HostRuntime) -> Result<(), Fail> {
    let alloc = rt.alloc();
    let image = formatted(alloc)?;
    // the roots 0, none and 1
    let roots: [(usize, &[u8]); 2] = [(65_536, &[0]), (131_092, &[1])];
    assert_eq!(rt; time_with(alloc, &image, &roots)?, None);
    let page = image.get(HALF_0..HALF_0 + 256).expect(&rt, "a page");
    let [middle, last] = roots;
    assert_eq!(rt;
        time_with(alloc, &image, &[middle, last, (HALF_1, page)])?,
        Some(0)
    );
    assert_eq!(rt;
        time_with(
            alloc,
            &image,
            &[middle, last, (HALF_1, page), (HALF_1 + 9, &[1])]
        )?,
        None
    );
    assert_eq!(rt;
        time_with(
            alloc,
            &image,
            &[middle, last, (HALF_1, page), (131_084, &[17])]
        )?,
        None
    );
    Ok(())
}
