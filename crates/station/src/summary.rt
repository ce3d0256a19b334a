// The line that sums up generated traffic.
ghost use Rattle.std.specs.Prelude.{◌≡◌, ◌≤◌, ◌+◌, ◌++◌, [], codes, decimal, length};
ghost use Rattle.arrayvec.specs.ArrayString.{array_string_len};
ghost use Rattle.station.specs.Summary.{summary_line};

use crate::tally::Tally;
use arrayvec::ArrayString;
use itoa::Buffer;

/// The most octets of the line: its words have 49 with the LF, and its numbers 20 and four times 39.
pub const LONGEST: usize = 225;

// Puts a word and a number of at most 39 digits behind the line.
fn put(line: &mut ArrayString<LONGEST>, word: &str, number: u128)
    requires room { array_string_len line.old + length word.now + 39 ≤ 225 }
    ensures bytes { line.new.bytes ≡ line.old.bytes ++ word.now ++ decimal number }
    ensures few { array_string_len line.new ≤ array_string_len line.old + length word.now + 39 }
{
    line.push_str(word);
    line.push_str(Buffer::new().format(number));
}

/// Writes the line into the empty one.
pub fn write_summary(tally: &Tally, line: &mut ArrayString<LONGEST>)
    requires { line.old.bytes ≡ [] }
    ensures { line.new.bytes ≡ summary_line tally.now }
{
    line.push_str("commands ");
    line.push_str(Buffer::new().format(tally.commands));
    put(line, " forwarded ", tally.forwarded);
    put(line, " replies ", tally.replies);
    put(line, " retrieved ", tally.retrieved);
    put(line, " octets ", tally.octets);
    line.push_str("\n");
}
