// The listings of the tables of the images.

use super::tables::{entries_image, formatted_image, full_image};
use super::writer::packet_of;
use super::{listing_of, push_hex};
use std::alloc::{AllocError, Global};
use std::test::Fail;

#[test]
fn the_table_after_a_format_is_listed(rt: HostRuntime) -> Result<(), Fail> {
    let alloc = rt.alloc();
    let listing = listing_of(&rt, alloc, formatted_image(alloc)?)?;
    let text = "now 000000000000 reports 0\n\
        store 1 circular size 64 channel 1 storage on open on behind 0 range none told no packets 0 pages 0\n\
        pattern every\n";
    assert!(rt; listing.as_slice() == text.as_bytes());
    Ok(())
}

// The lines of packets of one length, whose numbers and times rise by one.
fn push_packets(
    alloc: Global,
    text: &mut Vec<u8>,
    number: u32,
    count: u32,
    length: u16,
    time: u64,
) -> Result<(), AllocError> {
    for behind in 0..count {
        text.extend_from_slice(b"packet ")?;
        let octets = time.saturating_add(u64::from(behind)).to_be_bytes();
        for octet in &octets[2..] {
            push_hex(text, *octet)?;
        }
        text.push(b' ')?;
        for octet in &packet_of(alloc, number.wrapping_add(behind), length)? {
            push_hex(text, *octet)?;
        }
        text.push(b'\n')?;
    }
    Ok(())
}

#[test]
fn stores_of_half_one_are_listed(rt: HostRuntime) -> Result<(), Fail> {
    let alloc = rt.alloc();
    let listing = listing_of(&rt, alloc, full_image(alloc)?)?;
    let mut text = b"now 000100000000 reports 16383\n\
        forward app 2047\n\
        forward kind 102 5 2\n\
        store 1 circular size 300 channel 1 storage on open on behind 2 range none told no packets 14 pages 158\n\
        pattern every\n"
        .to_vec(alloc)?;
    push_packets(alloc, &mut text, 0xffff_fff6, 9, 4096, 0x106)?;
    push_packets(alloc, &mut text, 0xffff_ffff, 5, 20, 0x200)?;
    text.extend_from_slice(
        b"store 4660 bounded size 18 channel 7 storage on open on behind 1 range 0 2 told no packets 2 pages 18\n\
        pattern app 100\n\
        pattern service 101 3\n\
        pattern kind 102 5 2\n",
    )?;
    push_packets(alloc, &mut text, 7, 1, 4096, 1)?;
    push_packets(alloc, &mut text, 8, 1, 240, 0xffff_ffff)?;
    assert!(rt; listing.as_slice() == text.as_slice());
    Ok(())
}

#[test]
fn entries_are_folded_over_a_checkpoint(rt: HostRuntime) -> Result<(), Fail> {
    let alloc = rt.alloc();
    let listing = listing_of(&rt, alloc, entries_image(alloc)?)?;
    let text = "now 000000000010 reports 1\n\
        forward service 1000 5\n\
        store 1 circular size 64 channel 1 storage on open on behind 0 range none told no packets 1 pages 1\n\
        pattern every\n\
        packet 000000000010 0864c000000d2003190000000000000000000000\n\
        store 258 bounded size 20 channel 2 storage on open off behind 0 range none told no packets 0 pages 0\n\
        pattern kind 100 3 25\n";
    assert!(rt; listing.as_slice() == text.as_bytes());
    Ok(())
}
