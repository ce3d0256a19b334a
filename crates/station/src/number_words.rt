// Words that are numbers.
ghost use Rattle.std.specs.Prelude.{◌≡◌};
ghost use Rattle.station.specs.Numbers.{number_named};

/// The most digits of a number word.
const DIGITS: usize = 20;

/// `parse` takes this sign before a number. A number word has none.
const SIGN: u8 = b'+';

/// The number that a word of 1 to 20 decimal digits says, if it is below 2^64.
pub fn number_in(word: &str) -> Option<u64>
    ensures { result ≡ number_named word.now }
{
    let octets = word.as_bytes();
    if octets.is_empty() || octets.len() > DIGITS || octets[0] == SIGN {
        return None;
    }
    match word.parse::<u64>() {
        Ok(number) => Some(number),
        Err(_) => None,
    }
}
