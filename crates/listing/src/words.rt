// The words of a line, put into a buffer one behind the other.
ghost use Rattle.std.specs.Prelude.{◌≡◌, ◌≤◌, ◌<◌, ◌+◌, ◌*◌, ◌^◌, ◌∷◌, [], All, length, map};
ghost use Rattle.hex.specs.Hex.{encode_lower};
ghost use Rattle.listing.specs.Words.{IsShort, spaced, text_of};
ghost use Rattle.octet_fields.specs.Fields.{Writes};
ghost use Rattle.pst_model.specs.Listing.{range_words, time_word};

use itoa::Buffer;
use octet_fields::{put_octets, put_u8, put_u48};

/// A word of a line, but for times and octets.
#[derive(Clone, Copy)]
pub enum Word {
    /// At most 20 octets.
    Name(&'static str),
    Number(u32),
}

/// Puts octets at `at`, and answers the place behind them.
pub fn put_text(out: &mut [u8], at: usize, text: &[u8]) -> usize
    requires { at + length text.now ≤ length out.old }
    ensures end { result ≡ at + length text.now }
    ensures writes { Writes out.old out.new at text.now }
{
    put_octets(out, at, text);
    at + text.len()
}

// Puts octets behind a space, and answers the place behind them.
fn put_spaced(out: &mut [u8], at: usize, text: &[u8]) -> usize
    requires { at + 1 + length text.now ≤ length out.old }
    ensures end { result ≡ at + 1 + length text.now }
    ensures writes { Writes out.old out.new at (32 ∷ text.now) }
{
    put_u8(out, at, b' ');
    put_text(out, at + 1, text)
}

// Puts a word behind a space, and answers the place behind it.
fn put_word(out: &mut [u8], at: usize, word: Word) -> usize
    requires short { IsShort word }
    requires room { at + 21 ≤ length out.old }
    ensures few { result ≤ at + 21 }
    ensures end { result ≡ at + 1 + length (text_of word) }
    ensures writes { Writes out.old out.new at (32 ∷ text_of word) }
{
    match word {
        Word::Name(name) => put_spaced(out, at, name.as_bytes()),
        Word::Number(number) => {
            let mut digits = Buffer::new();
            put_spaced(out, at, digits.format(number).as_bytes())
        }
    }
}

/// Puts words at `at`, each behind a space, and answers the place behind them.
pub fn put_words(out: &mut [u8], at: usize, words: &[Word]) -> usize
    requires short { All IsShort words.now }
    requires room { at + 21 * length words.now ≤ length out.old }
    ensures few { result ≤ at + 21 * length words.now }
    ensures end { result ≡ at + length (spaced (map text_of words.now)) }
    ensures writes { Writes out.old out.new at (spaced (map text_of words.now)) }
{
    let mut end = at;
    for word in words {
        end = put_word(out, end, *word);
    }
    end
}

/// Puts the positions of a range, or that there is none, each word behind a space.
pub fn put_range(out: &mut [u8], at: usize, range: Option<(u32, u32)>) -> usize
    requires room { at + 42 ≤ length out.old }
    ensures few { result ≤ at + 42 }
    ensures end { result ≡ at + length (spaced (range_words range)) }
    ensures writes { Writes out.old out.new at (spaced (range_words range)) }
{
    match range {
        Some((next, end)) => put_words(out, at, &[Word::Number(next), Word::Number(end)]),
        None => put_words(out, at, &[Word::Name("none")]),
    }
}

// Puts octets in hexadecimal.
fn put_digits(out: &mut [u8], at: usize, octets: &[u8])
    requires { at + 2 * length octets.now ≤ length out.old }
    ensures { Writes out.old out.new at (encode_lower octets.now) }
{
    let end = at + 2 * octets.len();
    hex::encode_to_slice(octets, &mut out[at..end]).unwrap();
}

/// Puts octets in hexadecimal behind a space, and answers the place behind them.
pub fn put_hex(out: &mut [u8], at: usize, octets: &[u8]) -> usize
    requires { at + 1 + 2 * length octets.now ≤ length out.old }
    ensures few { result ≡ at + 1 + 2 * length octets.now }
    ensures end { result ≡ at + length (32 ∷ encode_lower octets.now) }
    ensures writes { Writes out.old out.new at (32 ∷ encode_lower octets.now) }
{
    put_u8(out, at, b' ');
    put_digits(out, at + 1, octets);
    at + 1 + 2 * octets.len()
}

/// Puts a time below 2^48 behind a space, and answers the place behind it.
pub fn put_time(out: &mut [u8], at: usize, time: u64) -> usize
    requires range { time < 2 ^ 48 }
    requires room { at + 13 ≤ length out.old }
    ensures few { result ≤ at + 13 }
    ensures end { result ≡ at + length (32 ∷ time_word time) }
    ensures writes { Writes out.old out.new at (32 ∷ time_word time) }
{
    let mut octets = [0; 6];
    put_u48(&mut octets, 0, time);
    put_hex(out, at, &octets)
}

/// Ends the line, and answers its octets.
pub fn end_line(out: &mut [u8], at: usize) -> usize
    requires room { at < length out.old }
    ensures end { result ≡ at + 1 }
    ensures writes { Writes out.old out.new at (10 ∷ []) }
{
    put_u8(out, at, b'\n');
    at + 1
}
