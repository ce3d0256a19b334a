// Octets that are no packet, at the edges of each rule, and packets at theirs.

use super::{digits_of, session};
use session_text::LineFault;
use space_packet::PacketFault;
use station::Ending;
use std::alloc::{AllocError, Global};
use std::process::Abort;
use std::test::Fail;

/// What the first two lines send.
const SENT: &[u8] = b"1 00010000000000\n";

// A session whose third line is the arrival of these digits. Before it a packet of 7 octets is
// sent, and behind it there is a grant.
fn text_with(alloc: Global, digits: &[u8]) -> Result<Vec<u8>, AllocError> {
    let mut text = b"A 000000000010 00010000000000\nG 000000000011\nA 000000000012 ".to_vec(alloc)?;
    text.extend_from_slice(digits)?;
    text.extend_from_slice(b"\nG 000000000013\n")?;
    Ok(text)
}

// How many octets, the first two of them, their packet data length field, and their fault.
type Row = (usize, u16, u16, PacketFault);

fn short(have: u32, need: u32) -> PacketFault {
    PacketFault::Short { have, need }
}

fn long(have: u32, need: u32) -> PacketFault {
    PacketFault::Long { have, need }
}

// Lengths that are not what the field says.
fn wrong_lengths() -> [Row; 17] {
    let too_large = |need| PacketFault::TooLarge { need };
    [
        // fewer than a header
        (1, 0x0864, 0, short(1, 6)),
        (2, 0x0864, 0, short(2, 6)),
        (5, 0x0864, 0, short(5, 6)),
        (5, 0x2864, 0, short(5, 6)),
        // a header alone
        (6, 0x0864, 0, short(6, 7)),
        (6, 0x0864, 65535, short(6, 65542)),
        // the field is one off
        (7, 0x0864, 1, short(7, 8)),
        (8, 0x0864, 0, long(8, 7)),
        (20, 0x0864, 14, short(20, 21)),
        (20, 0x0864, 12, long(20, 19)),
        (4096, 0x0864, 4090, short(4096, 4097)),
        (4096, 0x0864, 4088, long(4096, 4095)),
        // above 4,096 octets
        (4097, 0x0864, 4089, long(4097, 4096)),
        (4097, 0x0864, 4090, too_large(4097)),
        (4097, 0x0864, 4091, short(4097, 4098)),
        (4098, 0x0864, 4090, too_large(4097)),
        (65542, 0x0864, 65535, too_large(65542)),
    ]
}

// Other versions, whose fault comes behind short and before too large and long. Idle packets, of
// which an APID of 2047 tells, have no rules of their own here.
fn wrong_versions() -> [Row; 14] {
    let version = |found| PacketFault::Version { found };
    [
        (7, 0x2864, 0, version(1)),
        (7, 0x4864, 0, version(2)),
        (7, 0x6864, 0, version(3)),
        (7, 0x8864, 0, version(4)),
        (7, 0xa864, 0, version(5)),
        (7, 0xc864, 0, version(6)),
        (7, 0xe864, 0, version(7)),
        (7, 0xe864, 1, short(7, 8)),
        (8, 0xe864, 0, version(7)),
        (4097, 0x2864, 4090, version(1)),
        (7, 0x27ff, 0, version(1)),
        (6, 0x07ff, 0, short(6, 7)),
        (8, 0x07ff, 0, long(8, 7)),
        (4097, 0x07ff, 4090, PacketFault::TooLarge { need: 4097 }),
    ]
}

// The arrival of each row ends its session as the third line.
fn end_their_sessions(rt: &impl Abort, alloc: Global, rows: &[Row]) -> Result<(), Fail> {
    for &(count, word, field, fault) in rows {
        let digits = digits_of(alloc, count, word, field, 0x5a)?;
        let (ending, sent) = session(alloc, &text_with(alloc, &digits)?, 4096, None)?;
        let bad = Ending::BadLine {
            line: 3,
            why: LineFault::Packet(fault),
        };
        assert_eq!(rt; ending, bad, "{count} octets from {word} with {field}");
        assert!(rt;
            sent.as_slice() == SENT,
            "{count} octets from {word} with {field}"
        );
    }
    Ok(())
}

#[test]
fn octets_that_are_no_packet_end_the_session(rt: HostRuntime) -> Result<(), Fail> {
    end_their_sessions(&rt, rt.alloc(), &wrong_lengths())?;
    end_their_sessions(&rt, rt.alloc(), &wrong_versions())
}

#[test]
fn a_packet_is_sent_and_an_idle_one_is_not(rt: HostRuntime) -> Result<(), Fail> {
    let alloc = rt.alloc();
    // how many octets, the first two of them, the packet data length field, and whether they are
    // sent
    let rows = [
        (7, 0x0864, 0, true),
        (7, 0x1fff, 0, false),
        (7, 0x07ff, 0, false),
        (7, 0x07fe, 0, true),
        (8, 0x0000, 1, true),
        (240, 0x1864, 233, true),
        (241, 0x1864, 234, true),
        (4095, 0x0864, 4088, true),
        (4096, 0x0864, 4089, true),
        (4096, 0x07ff, 4089, false),
    ];
    for (count, word, field, is_sent) in rows {
        let digits = digits_of(alloc, count, word, field, 0xa5)?;
        let (ending, sent) = session(alloc, &text_with(alloc, &digits)?, 4096, None)?;
        let mut expected = SENT.to_vec(alloc)?;
        if is_sent {
            expected.extend_from_slice(b"1 ")?;
            expected.extend_from_slice(&digits)?;
            expected.push(b'\n')?;
        }
        assert_eq!(rt; ending, Ending::Done, "{count} octets from {word}");
        assert!(rt; sent == expected, "{count} octets from {word}");
    }
    Ok(())
}
