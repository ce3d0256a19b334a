// Lines at the limit and far above it, and a text that fills the store a hundred times.

use super::{digits_of, session};
use session_text::LineFault;
use space_packet::PacketFault;
use station::Ending;
use std::alloc::{AllocError, Global};
use std::process::Abort;
use std::test::Fail;

/// The first two lines of the texts, and what they send.
const BEFORE: &[u8] = b"A 000000000010 00010000000000\nG 000000000011\n";

const SENT: &[u8] = b"1 00010000000000\n";

// A line of so many octets without its LF: this front, and behind it this octet again and again.
fn push_long(text: &mut Vec<u8>, front: &[u8], fill: u8, length: usize) -> Result<(), AllocError> {
    text.extend_from_slice(front)?;
    for _ in front.len()..length {
        text.push(fill)?;
    }
    Ok(())
}

// The text ends at its third line, for this reason, behind the packet of the first two.
fn ends_at_third(rt: &impl Abort, alloc: Global, text: &[u8], why: LineFault) -> Result<(), Fail> {
    let (ending, sent) = session(alloc, text, 4096, None)?;
    assert_eq!(rt;
        ending,
        Ending::BadLine { line: 3, why },
        "a text of {}",
        text.len()
    );
    assert!(rt; sent.as_slice() == SENT, "a text of {}", text.len());
    Ok(())
}

// The front of a line, the octet that follows it again and again, the length, and the fault.
type Row = (&'static [u8], u8, usize, LineFault);

// An arrival has 15 octets in front of its digits. So a line of 131,199 octets is the longest one
// with an even number of digits, which spell 65,592 octets, and the longest packet that a length
// field can say has 65,542.
fn long_lines() -> [Row; 14] {
    let form = LineFault::Form;
    let short = |have, need| LineFault::Packet(PacketFault::Short { have, need });
    let long = |have, need| LineFault::Packet(PacketFault::Long { have, need });
    let version = |found| LineFault::Packet(PacketFault::Version { found });
    let too_large = |need| LineFault::Packet(PacketFault::TooLarge { need });
    let arrival = b"A 000000000012 0864c000ffff".as_slice();
    [
        (arrival, b'0', 131_097, short(65541, 65542)),
        (arrival, b'0', 131_099, too_large(65542)),
        (arrival, b'0', 131_199, too_large(65542)),
        (
            b"A 000000000012 0864c0000ff9",
            b'f',
            131_199,
            long(65592, 4096),
        ),
        (b"A 000000000012 e864c000ffff", b'0', 131_199, version(7)),
        (arrival, b'g', 131_199, form),
        (arrival, b'0', 131_200, form),
        (b"G ", b'0', 131_200, form),
        (arrival, b'0', 131_201, LineFault::LongLine),
        (b"G 000000000012", b' ', 131_201, LineFault::LongLine),
        (b"", b'#', 131_201, LineFault::LongLine),
        (arrival, b'0', 1_000_000, LineFault::LongLine),
        (arrival, b'0', 1_000_001, LineFault::LongLine),
        (b"", b'\0', 1_000_000, LineFault::LongLine),
    ]
}

#[test]
fn long_lines_end_the_session(rt: HostRuntime) -> Result<(), Fail> {
    let alloc = rt.alloc();
    for (front, fill, length, why) in long_lines() {
        let mut text = BEFORE.to_vec(alloc)?;
        push_long(&mut text, front, fill, length)?;
        // with no LF, and so the last line
        ends_at_third(&rt, alloc, &text, why)?;
        text.extend_from_slice(b"\nA 000000000012 00010000000001\nG 000000000013\n")?;
        ends_at_third(&rt, alloc, &text, why)?;
    }
    Ok(())
}

// A packet that arrives, in digits, and the pages that it takes with the 16 octets of its record
// head.
#[derive(Drop)]
struct Arrival {
    digits: Vec<u8>,
    pages: u32,
}

// Rounds of packets of 17, 4, 2, 1 and 1 pages of 256 octets: 25 a round, and 6,400 in all.
fn arrivals(alloc: Global) -> Result<Vec<Arrival>, AllocError> {
    let mut arrivals = Vec::new(alloc);
    for round in 0..=255u8 {
        for (length, pages) in [(4096u16, 17), (1000, 4), (241, 2), (240, 1), (7, 1)] {
            let digits = digits_of(alloc, length as usize, 0x0864, length - 7, round)?;
            arrivals.push(Arrival { digits, pages })?;
        }
    }
    Ok(arrivals)
}

// How many packets are left of these: the last ones, as long as they fit in 64 pages.
fn count_left(arrivals: &[Arrival]) -> usize {
    let mut free = 64;
    let mut count = 0usize;
    for arrival in arrivals.iter().rev() {
        if arrival.pages > free {
            break;
        }
        free -= arrival.pages;
        count = count.saturating_add(1);
    }
    count
}

#[test]
fn a_store_filled_a_hundred_times_sends_its_last_packets(rt: HostRuntime) -> Result<(), Fail> {
    let alloc = rt.alloc();
    let arrivals = arrivals(alloc)?;
    let mut text = BEFORE.to_vec(alloc)?;
    for arrival in &arrivals {
        text.extend_from_slice(b"A 000000000012 ")?;
        text.extend_from_slice(&arrival.digits)?;
        text.push(b'\n')?;
    }
    let count = count_left(&arrivals);
    // two rounds, and the last four packets of the one before
    assert_eq!(rt; count, 14);
    let mut expected = SENT.to_vec(alloc)?;
    for arrival in arrivals.iter().skip(arrivals.len().saturating_sub(count)) {
        text.extend_from_slice(b"G 000000000013\n")?;
        expected.extend_from_slice(b"1 ")?;
        expected.extend_from_slice(&arrival.digits)?;
        expected.push(b'\n')?;
    }
    // one more, with nothing left
    text.extend_from_slice(b"G 000000000013\n")?;
    let (ending, sent) = session(alloc, &text, 4096, None)?;
    assert_eq!(rt; ending, Ending::Done);
    assert!(rt; sent == expected);
    Ok(())
}
