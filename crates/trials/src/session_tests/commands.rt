// Commands as data: a letter for each, and the text that letters spell.

use super::push_hex;
use super::writer::packet_of;
use std::alloc::{AllocError, Global};

/// The requests by their letters, on store 1. Each asks for all reports.
const REQUESTS: [(u8, &str); 16] = [
    // storage on and off, of which one may fail since it is so already
    (b'e', "180ac00000072f0f010000010001"),
    (b'd', "180ac00000072f0f020000010001"),
    // open retrieval on and off
    (b'r', "180ac00000072f0f0f0000010001"),
    (b's', "180ac00000072f0f100000010001"),
    // a pattern of the store: App 100 is added, Every is removed, Every is added
    (b'p', "180ac000000c2f0f0300000100010100640000"),
    (b'q', "180ac000000c2f0f0400000100010000000000"),
    (b'v', "180ac000000c2f0f0300000100010000000000"),
    // App 100 is forwarded, and is not
    (b'f', "180ac000000a2f0e010000010100640000"),
    (b'u', "180ac000000a2f0e020000010100640000"),
    // reports of the state
    (b'1', "180ac000000b2f0f0c000003000100020001"),
    (b'2', "180ac00000042f0f120000"),
    (b'3', "180ac00000042f0f160000"),
    (b'4', "180ac00000042f0e030000"),
    (b'5', "180ac00000062f0f0500000001"),
    // refused: of APID 11; with no instruction
    (b'x', "180bc00000042f0f120000"),
    (b'y', "180ac00000052f0f01000000"),
];

fn request_of(letter: u8) -> &'static str {
    for (name, digits) in REQUESTS {
        if name == letter {
            return digits;
        }
    }
    ""
}

// The kind of a line, and its time.
fn push_head(text: &mut Vec<u8>, kind: u8, time: u64) -> Result<(), AllocError> {
    text.extend_from_slice(&[kind, b' '])?;
    let octets = time.to_be_bytes();
    for octet in &octets[2..] {
        push_hex(text, *octet)?;
    }
    Ok(())
}

/// The line of an arriving packet.
pub(super) fn push_arrival(
    alloc: Global,
    text: &mut Vec<u8>,
    number: u32,
    length: u16,
    time: u64,
) -> Result<(), AllocError> {
    push_head(text, b'A', time)?;
    text.push(b' ')?;
    for octet in &packet_of(alloc, number, length)? {
        push_hex(text, *octet)?;
    }
    text.push(b'\n')?;
    Ok(())
}

/// The line of a command: `a` and `A` are arrivals of 20 and 4,096 octets, `g` is a grant, `i` an
/// idle time, and each other letter a request.
pub(super) fn push_command(
    alloc: Global,
    text: &mut Vec<u8>,
    letter: u8,
    number: u32,
    time: u64,
) -> Result<(), AllocError> {
    match letter {
        b'a' => return push_arrival(alloc, text, number, 20, time),
        b'A' => return push_arrival(alloc, text, number, 4096, time),
        b'g' => push_head(text, b'G', time)?,
        b'i' => push_head(text, b'I', time)?,
        _ => {
            push_head(text, b'R', time)?;
            text.push(b' ')?;
            text.extend_from_slice(request_of(letter).as_bytes())?;
        }
    }
    text.push(b'\n')?;
    Ok(())
}

/// The lines of these letters. Packets have the numbers from 0 on, and times rise by 64 from a time a
/// little below 2^32.
pub(super) fn lines_of(alloc: Global, letters: &[u8]) -> Result<Vec<Vec<u8>>, AllocError> {
    let mut lines = Vec::new(alloc);
    let mut time = 0xffff_fe00;
    for (number, letter) in letters.iter().enumerate() {
        let mut line = Vec::new(alloc);
        push_command(alloc, &mut line, *letter, (number % 256) as u32, time)?;
        lines.push(line)?;
        time = u64::saturating_add(time, 64);
    }
    Ok(lines)
}
