// A session of ten commands, and what each of them sends.

use super::digits_of;
use std::alloc::{AllocError, Global};
use std::collections::VecDeque;

/// A line of the session, and what goes out for it.
#[derive(Drop)]
pub struct Turn {
    pub line: Vec<u8>,
    pub sends: Vec<u8>,
}

// A line, with an LF.
fn line_of(alloc: Global, front: &[u8], digits: &[u8]) -> Result<Vec<u8>, AllocError> {
    let mut line = front.to_vec(alloc)?;
    line.extend_from_slice(digits)?;
    line.push(b'\n')?;
    Ok(line)
}

// The turn of an arrival, or of a grant, which sends the first packet that was not sent yet. Digits
// arrive in upper case, and go out in lower case.
fn turn_of<'a>(
    alloc: Global,
    waiting: &mut VecDeque<&'a [u8]>,
    arrives: Option<&'a [u8]>,
) -> Result<Turn, AllocError> {
    if let Some(packet) = arrives {
        waiting.push_back(packet)?;
        let digits = packet.to_ascii_uppercase(alloc)?;
        return Ok(Turn {
            line: line_of(alloc, b"A 000000000010 ", &digits)?,
            sends: Vec::new(alloc),
        });
    }
    let sends = match waiting.pop_front() {
        Some(packet) => line_of(alloc, b"1 ", packet)?,
        None => Vec::new(alloc),
    };
    Ok(Turn {
        line: line_of(alloc, b"G 000000000011", b"")?,
        sends,
    })
}

/// The session: five packets arrive, and of five grants one finds no packet left.
pub fn turns(alloc: Global) -> Result<Vec<Turn>, AllocError> {
    let first = digits_of(alloc, 20, 0x0864, 13, 0xaa)?;
    let second = digits_of(alloc, 7, 0x1865, 0, 0x0f)?;
    let third = digits_of(alloc, 2200, 0x0001, 2193, 0x5a)?;
    let fourth = digits_of(alloc, 9, 0x0864, 2, 0xff)?;
    let fifth = digits_of(alloc, 300, 0x0864, 293, 0x10)?;
    let arrives: [Option<&[u8]>; 10] = [
        Some(&first),
        None,
        Some(&second),
        Some(&third),
        None,
        None,
        None,
        Some(&fourth),
        Some(&fifth),
        None,
    ];
    let mut turns = Vec::new(alloc);
    let mut waiting = VecDeque::new(alloc);
    for packet in arrives {
        turns.push(turn_of(alloc, &mut waiting, packet)?)?;
    }
    Ok(turns)
}

/// The text of the session.
pub fn text_of(alloc: Global, turns: &[Turn]) -> Result<Vec<u8>, AllocError> {
    let mut text = Vec::new(alloc);
    for turn in turns {
        text.extend_from_slice(&turn.line)?;
    }
    Ok(text)
}

/// What the commands send whose whole lines stand among so many octets of the text.
pub fn sent_within(alloc: Global, turns: &[Turn], octets: usize) -> Result<Vec<u8>, AllocError> {
    let mut left = octets;
    let mut sent = Vec::new(alloc);
    for turn in turns {
        if turn.line.len() > left {
            break;
        }
        left -= turn.line.len();
        sent.extend_from_slice(&turn.sends)?;
    }
    Ok(sent)
}

/// The lines before the line with this number, counted from 1, and half of that line, rounded down.
pub fn sent_half(alloc: Global, turns: &[Turn], number: u64) -> Result<Vec<u8>, AllocError> {
    let mut ahead = number;
    let mut sent = Vec::new(alloc);
    for turn in turns.iter().filter(|turn| !turn.sends.is_empty()) {
        if ahead == 1 {
            sent.extend_from_slice(&turn.sends[..turn.sends.len() / 2])?;
            break;
        }
        ahead = ahead.saturating_sub(1);
        sent.extend_from_slice(&turn.sends)?;
    }
    Ok(sent)
}
