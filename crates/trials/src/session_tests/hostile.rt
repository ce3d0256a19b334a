// Images that are damaged, or were never written by the program.

use super::tables::{entries_image, formatted_image, full_image};
use super::writer::{BLOCK, PAGE, put};
use super::{board_of, listing_of, session};
use station::Ending;
use std::alloc::{AllocError, Global};
use std::process::Abort;
use std::test::Fail;

/// The pages of the halves, and of the blocks from 7 on.
const HALVES: [usize; 2] = [768, 1280];

const RECORDS: usize = 1792;

// An image with an octet changed.
fn changed(image: &Vec<u8>, at: usize, change: u8) -> Result<Vec<u8>, AllocError> {
    let mut image = image.clone()?;
    if at < image.len() {
        image[at] ^= change;
    }
    Ok(image)
}

// Lists an image that may hold a table or none. Whether it holds one.
fn is_held(rt: &impl Abort, alloc: Global, image: Vec<u8>, place: usize) -> Result<bool, Fail> {
    let mut board = board_of(rt, alloc, image)?;
    let ending = session(alloc, &mut board, "list", b"")?;
    if ending == Ending::Done {
        assert!(rt; board.sent().starts_with(b"now "), "place {place}");
        return Ok(true);
    }
    assert_eq!(rt; ending, Ending::NotHeld, "place {place}");
    assert!(rt; board.sent().is_empty(), "place {place}");
    Ok(false)
}

// Changes each octet from a page on in three ways. How many of the images hold a table, and how many
// hold none.
fn change_each(
    rt: &impl Abort,
    alloc: Global,
    image: &Vec<u8>,
    page: usize,
    count: usize,
) -> Result<(u64, u64), Fail> {
    let mut held = 0;
    let mut others = 0;
    for behind in 0..count {
        let at = page.saturating_mul(PAGE).saturating_add(behind);
        for change in [1, 0x80, 0xff] {
            if is_held(rt, alloc, changed(image, at, change)?, at)? {
                held = u64::saturating_add(held, 1);
            } else {
                others = u64::saturating_add(others, 1);
            }
        }
    }
    Ok((held, others))
}

#[test]
fn a_changed_checkpoint_is_listed_or_refused(rt: HostRuntime) -> Result<(), Fail> {
    let alloc = rt.alloc();
    let image = full_image(alloc)?;
    let (held, others) = change_each(&rt, alloc, &image, HALVES[1], 2 * PAGE)?;
    assert!(rt; held > 0 && others > 0, "{held} {others}");
    Ok(())
}

#[test]
fn changed_entries_are_listed_or_refused(rt: HostRuntime) -> Result<(), Fail> {
    let alloc = rt.alloc();
    let image = entries_image(alloc)?;
    let (held, others) = change_each(&rt, alloc, &image, HALVES[0], 5 * PAGE)?;
    assert!(rt; held > 0 && others > 0, "{held} {others}");
    Ok(())
}

#[test]
fn changed_records_are_listed_or_refused(rt: HostRuntime) -> Result<(), Fail> {
    let alloc = rt.alloc();
    let image = full_image(alloc)?;
    for page in [0, 17, 512] {
        let (held, others) = change_each(&rt, alloc, &image, page + RECORDS, 64)?;
        assert!(rt; held > 0 && others > 0, "page {page}: {held} {others}");
    }
    Ok(())
}

// Two root pages that are the same choose the root, whatever the third one holds.
#[test]
fn a_changed_root_page_changes_nothing(rt: HostRuntime) -> Result<(), Fail> {
    let alloc = rt.alloc();
    let image = entries_image(alloc)?;
    let listing = listing_of(&rt, alloc, image.clone()?)?;
    for block in 0..3usize {
        for place in 0..PAGE {
            let at = (block * BLOCK).saturating_add(place);
            let found = listing_of(&rt, alloc, changed(&image, at, 1)?)?;
            assert!(rt; found == listing, "octet {at}");
        }
    }
    Ok(())
}

// Octets of a fixed generator, 16 blocks of them.
fn noise(alloc: Global) -> Result<Vec<u8>, AllocError> {
    let mut state = 20u64;
    let mut octets = Vec::new(alloc);
    for _ in 0..BLOCK * 16 {
        state = state
            .wrapping_mul(6_364_136_223_846_793_005)
            .wrapping_add(1_442_695_040_888_963_407);
        octets.push(state.to_be_bytes()[0])?;
    }
    Ok(octets)
}

// Copies octets of another image.
fn copy(image: &mut [u8], from: &[u8], at: usize, count: usize) {
    if at <= from.len() {
        let rest = &from[at..];
        put(image, at, &rest[..count.min(rest.len())]);
    }
}

// No session on the image begins, but a format makes it a device like any other.
fn is_refused(rt: &impl Abort, alloc: Global, image: Vec<u8>) -> Result<(), Fail> {
    for word in ["list", "run"] {
        let mut board = board_of(rt, alloc, image.clone()?)?;
        let ending = session(alloc, &mut board, word, b"G 000000000000\n")?;
        assert_eq!(rt; ending, Ending::NotHeld, "{word}");
    }
    let mut board = board_of(rt, alloc, image)?;
    let ending = session(alloc, &mut board, "fresh", b"")?;
    assert_eq!(rt; ending, Ending::Done);
    let ending = session(alloc, &mut board, "list", b"")?;
    assert_eq!(rt; ending, Ending::Done);
    let listing = listing_of(rt, alloc, formatted_image(alloc)?)?;
    assert!(rt; board.sent() == listing.as_slice());
    Ok(())
}

#[test]
fn noise_is_no_table(rt: HostRuntime) -> Result<(), Fail> {
    let alloc = rt.alloc();
    let whole = full_image(alloc)?;
    let mut image = noise(alloc)?;
    is_refused(&rt, alloc, image.clone()?)?;
    for block in 0..3usize {
        copy(&mut image, &whole, block * BLOCK, PAGE);
    }
    is_refused(&rt, alloc, image.clone()?)?;
    copy(&mut image, &whole, HALVES[1] * PAGE, 2 * PAGE);
    is_refused(&rt, alloc, image)?;
    Ok(())
}
