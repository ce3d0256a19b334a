// Whole sessions. What is expected of them is worked out here from the formats, apart from the
// program.
ghost use Rattle.std.specs.Prelude.{◌<◌};

mod failures;
mod forms;
mod long;
mod packets;
mod patterns;
mod requests;
mod shown;
mod worked;

use crate::half_board::HalfBoard;
use crate::short_source::ShortSource;
use station::{Ending, station};
use std::alloc::{AllocError, Global};
use std::test::Fail;

/// The most octets that a take gives.
const MOSTS: [usize; 5] = [1, 2, 3, 7, 4096];

/// The digits of the values 0 to 15.
const DIGITS: [u8; 16] = *b"0123456789abcdef";

// The words of a session.
fn fresh(alloc: Global) -> Result<Vec<String>, AllocError> {
    let mut words = Vec::new(alloc);
    words.push(String::from_str(alloc, "fresh")?)?;
    Ok(words)
}

// Appends the two digits of an octet.
fn push_hex(text: &mut Vec<u8>, octet: u8) -> Result<(), AllocError> {
    text.push(DIGITS[octet as usize / 16])?;
    text.push(DIGITS[octet as usize % 16])?;
    Ok(())
}

// The digits of so many octets: those of a header with this first word and this length field, and
// behind them one octet again and again.
fn digits_of(
    alloc: Global,
    count: usize,
    word: u16,
    field: u16,
    fill: u8,
) -> Result<Vec<u8>, AllocError> {
    let [first, second] = word.to_be_bytes();
    let [high, low] = field.to_be_bytes();
    let header = [first, second, 0xc0, 0, high, low];
    let mut digits = Vec::new(alloc);
    for place in 0..count {
        push_hex(&mut digits, if place < 6 { header[place] } else { fill })?;
    }
    Ok(digits)
}

// How a session of the text ends, and what it sends, where a take gives at most so many octets, and
// maybe one take fails.
fn session(
    alloc: Global,
    text: &[u8],
    most: usize,
    failing: Option<u64>,
) -> Result<(Ending, Vec<u8>), AllocError>
    requires { 0 < most }
{
    let mut board = HalfBoard::new(alloc, 16)?;
    let mut source = ShortSource::new(text.to_vec(alloc)?, most);
    if let Some(number) = failing {
        source.plan(number);
    }
    let ending = station(alloc, &fresh(alloc)?, &mut source, &mut board);
    Ok((ending, board.sent().to_vec(alloc)?))
}

// What a session of the text sends, where it comes to its end.
fn sent(alloc: Global, text: &str) -> Result<Option<Vec<u8>>, AllocError> {
    let (ending, sent) = session(alloc, text.as_bytes(), 4096, None)?;
    Ok(if ending == Ending::Done {
        Some(sent)
    } else {
        None
    })
}
