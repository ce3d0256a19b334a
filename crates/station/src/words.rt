// The words of a session.
ghost use Rattle.std.specs.Prelude.{◌≡◌, ◌↔◌, ◌∷◌, [], IsTrue};
ghost use Rattle.station.specs.Numbers.{in_range, number_named};
ghost use Rattle.station.specs.Words.{texts_of, traffic_named};

use crate::number_words::number_in;

/// The most arrivals of generated traffic.
const MOST: u64 = 100_000;

/// Whether the words of a session are this one alone.
pub fn are_only(words: &Vec<String>, word: &str) -> bool
    ensures { IsTrue result ↔ (texts_of words.now ≡ word.now ∷ []) }
{
    words.len() == 1 && words[0].as_str() == word
}

// The number of arrivals that a word says, if it is one that traffic may have.
fn arrivals_in(word: &str) -> Option<u32>
    ensures { result ≡ in_range 1 100000 (number_named word.now) }
{
    let count = number_in(word)?;
    if count == 0 || count > MOST {
        return None;
    }
    Some(count as u32)
}

/// The number and the count of arrivals of the traffic that the words ask for, if they are `generate`
/// and two numbers: one below 2^64, and one from 1 to 100,000.
pub fn traffic_in(words: &Vec<String>) -> Option<(u64, u32)>
    ensures { result ≡ traffic_named (texts_of words.now) }
{
    if words.len() != 3 || words[0].as_str() != "generate" {
        return None;
    }
    let number = number_in(words[1].as_str())?;
    let count = arrivals_in(words[2].as_str())?;
    Some((number, count))
}
