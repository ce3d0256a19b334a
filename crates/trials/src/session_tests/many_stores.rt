// Sessions on images of five and of 32 stores. The lines that they send are worked out by hand.

use super::commands::{push_arrival, push_command};
use super::many_tables::{five_image, many_image};
use super::tables::{PLAN, STORE};
use super::writer::{StoreRow, image_of, packet_of};
use super::{board_of, push_hex, session};
use board::CallKind;
use session_text::LineFault;
use space_packet::PacketFault;
use station::Ending;
use std::alloc::{AllocError, Global};
use std::process::Abort;
use std::test::Fail;

/// A line that is sent.
#[derive(Clone, Copy)]
enum Line {
    /// a packet on a channel, of a number and a length
    Packet(u8, u32, u16),
    /// the report of a refusal: its count, the last octet of its time, the store, the pages needed and
    /// free
    Refusal(u16, u8, u16, u8, u8),
}

// The octets of a report [5,2].
fn refusal_of(count: u16, time: u8, store: u16, need: u8, free: u8) -> [u8; 31] {
    let [high, low] = count.to_be_bytes();
    let [first, second] = store.to_be_bytes();
    [
        0x08,
        0x0a,
        0xc0 | high,
        low,
        0,
        0x18,
        0x20,
        5,
        2,
        0,
        0,
        0,
        0,
        0,
        0,
        0,
        0,
        0,
        time,
        0,
        1,
        first,
        second,
        0,
        0,
        0,
        need,
        0,
        0,
        0,
        free,
    ]
}

fn push_line(alloc: Global, text: &mut Vec<u8>, line: &Line) -> Result<(), AllocError> {
    match line {
        Line::Packet(channel, number, length) => {
            text.push(b'0'.saturating_add(*channel))?;
            text.push(b' ')?;
            for octet in &packet_of(alloc, *number, *length)? {
                push_hex(text, *octet)?;
            }
        }
        Line::Refusal(count, time, store, need, free) => {
            text.extend_from_slice(b"0 ")?;
            for octet in &refusal_of(*count, *time, *store, *need, *free) {
                push_hex(text, *octet)?;
            }
        }
    }
    text.push(b'\n')?;
    Ok(())
}

// The text of arrivals and grants: of a number above 0 a packet of so many octets arrives, and else there is
// a grant. The line at a place has the time of the place.
fn text_of(alloc: Global, lengths: &[u16]) -> Result<Vec<u8>, AllocError> {
    let mut text = Vec::new(alloc);
    for (place, length) in lengths.iter().enumerate() {
        let number = (place % 256) as u32;
        if *length > 0 {
            push_arrival(alloc, &mut text, number, *length, u64::from(number))?;
        } else {
            push_command(alloc, &mut text, b'g', number, u64::from(number))?;
        }
    }
    Ok(text)
}

// A session of these lines on the image sends those, and ends with its text. Where a send fails, all
// lines before it were sent.
fn check_session(
    rt: &impl Abort,
    alloc: Global,
    image: Vec<u8>,
    lengths: &[u16],
    lines: &[Line],
) -> Result<(), Fail> {
    let text = text_of(alloc, lengths)?;
    let mut sent = Vec::new(alloc);
    for (number, line) in lines.iter().enumerate() {
        let mut board = board_of(rt, alloc, image.clone()?)?;
        board.plan(CallKind::Send, (number as u64).saturating_add(1))?;
        let ending = session(alloc, &mut board, "run", &text)?;
        assert_eq!(rt; ending, Ending::LinkFault, "send {number}");
        assert!(rt; board.sent() == sent.as_slice(), "send {number}");
        push_line(alloc, &mut sent, line)?;
    }
    let mut board = board_of(rt, alloc, image)?;
    let ending = session(alloc, &mut board, "run", &text)?;
    assert_eq!(rt; ending, Ending::Done);
    assert!(rt; board.sent() == sent.as_slice());
    Ok(())
}

/// A small packet is 20 octets, one page, and a large one 4,096 octets, 17 pages.
const S: u16 = 20;

const L: u16 = 4096;

const G: u16 = 0;

// The first line is refused by the full store 2, which tells so once, and taken by the stores 1, 4 and
// 65535. The grants send the range of the last store first, and then what open retrieval has ahead, in
// the order of the stores. The large packets of the lines 10 and 11 need 17 of 31 and of 14 pages of the
// last store. It takes the small one of line 12, and so tells of its next refusal too, at line 13. Store
// 1 has 64 pages: at line 14 the packets of the lines 0, 1 and 10 leave it.
#[test]
fn five_stores_take_refuse_and_retrieve(rt: HostRuntime) -> Result<(), Fail> {
    let alloc = rt.alloc();
    let lengths = [S, S, G, G, G, G, G, G, G, G, L, L, S, L, L, G];
    let lines = [
        Line::Refusal(16_383, 0, 2, 1, 0),
        Line::Packet(7, 200, S),
        Line::Packet(1, 0, S),
        Line::Packet(1, 1, S),
        Line::Packet(2, 0xffff_ffff, L),
        Line::Packet(3, 0, S),
        Line::Packet(7, 0, S),
        Line::Packet(7, 1, S),
        Line::Refusal(0, 11, 65_535, 17, 14),
        Line::Refusal(1, 13, 65_535, 17, 13),
        Line::Packet(1, 11, L),
    ];
    check_session(&rt, alloc, five_image(alloc)?, &lengths, &lines)
}

// The 16 bounded stores are full behind the first packet.
#[test]
fn thirty_two_stores_take_and_refuse(rt: HostRuntime) -> Result<(), Fail> {
    let alloc = rt.alloc();
    let lengths = [L, S, S, G, G];
    let mut lines = Vec::new(alloc);
    for place in 0..16u8 {
        let store = u16::from(place) * 2 + 2;
        lines.push(Line::Refusal(u16::from(place), 1, store, 1, 0))?;
    }
    lines.push(Line::Packet(1, 1, S))?;
    lines.push(Line::Packet(1, 2, S))?;
    check_session(&rt, alloc, many_image(alloc)?, &lengths, &lines)
}

// Each store sends the packet on its channel, in the order of the stores.
#[test]
fn thirty_two_stores_retrieve_in_their_order(rt: HostRuntime) -> Result<(), Fail> {
    let alloc = rt.alloc();
    let mut lengths = [G; 34];
    lengths[0] = L;
    let mut lines = Vec::new(alloc);
    for place in 0..32u8 {
        lines.push(Line::Packet(place % 7 + 1, 0, L))?;
    }
    check_session(&rt, alloc, many_image(alloc)?, &lengths, &lines)
}

// A circular store refuses too what it cannot hold, and tells so once until its next put.
#[test]
fn a_store_refuses_a_packet_that_is_larger(rt: HostRuntime) -> Result<(), Fail> {
    let alloc = rt.alloc();
    let row = StoreRow { size: 16, ..STORE };
    let image = image_of(alloc, &PLAN, &[row], &[])?;
    let lengths = [S, L, L, S, L, G, G, G];
    let lines = [
        Line::Refusal(0, 1, 1, 17, 15),
        Line::Refusal(1, 4, 1, 17, 14),
        Line::Packet(1, 0, S),
        Line::Packet(1, 3, S),
    ];
    check_session(&rt, alloc, image, &lengths, &lines)
}

// The third line has a packet of 4,097 octets. The line behind it is not carried out.
#[test]
fn a_packet_too_large_for_a_record_ends_the_session(rt: HostRuntime) -> Result<(), Fail> {
    let alloc = rt.alloc();
    let text = text_of(alloc, &[S, G, 4097, S, G])?;
    let mut board = board_of(&rt, alloc, five_image(alloc)?)?;
    let ending = session(alloc, &mut board, "run", &text)?;
    let why = LineFault::Packet(PacketFault::TooLarge { need: 4097 });
    assert_eq!(rt; ending, Ending::BadLine { line: 3, why });
    let mut sent = Vec::new(alloc);
    push_line(alloc, &mut sent, &Line::Refusal(16_383, 0, 2, 1, 0))?;
    push_line(alloc, &mut sent, &Line::Packet(7, 200, S))?;
    assert!(rt; board.sent() == sent.as_slice());
    Ok(())
}
