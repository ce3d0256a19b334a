// Where the first line ends of the octets that were taken.
ghost use Rattle.std.specs.Prelude.{◌≡◌, ◌≤◌, ◌+◌, ◌++◌, length, IsTrue};
ghost use Rattle.board.specs.Counts.{Rose};
ghost use Rattle.session_text.specs.Find.{Finds, IsFound, OnFailed, UnlessFailed, empty_takes_of, is_past};

use crate::held::Held;
use board::Source;
use memchr::memchr;

/// The most octets of a line, without its LF.
pub const LONGEST: usize = 131_200;

/// Where the first line of the octets that are held ends.
pub enum Found {
    // Its LF stands behind so many octets.
    Line(usize),
    // It has so many octets and no LF, since the text ends there.
    Last(usize),
    // It is too long, whatever comes behind.
    Past,
    // There is none.
    End,
    // The source failed.
    Failed,
}

// Whether so many octets without an LF begin a line that is too long, in a text with room for these.
fn is_past(room: u64, held: usize) -> bool
    ensures { result ≡ is_past room held }
{
    held > LONGEST || room < held as u64
}

/// Takes octets until the first line that is held is whole, or too long for a text with room for these.
pub fn find_line<S: Source>(held: &mut Held, source: &mut S, room: u64) -> Found
    ensures found { Finds room held.new (S.means.tells source.old) (S.means.left source.new) result }
    ensures still { IsFound room held.old → (source.new ≡ source.old) × (held.new ≡ held.old) }
    ensures text { IsTrue (S.means.tells source.old)
        → held.new ++ S.means.left source.new ≡ held.old ++ S.means.left source.old }
    ensures takes { (S.means.takes source.old ≤ S.means.takes source.new) × (S.means.takes source.new + length held.old
        ≤ S.means.takes source.old + length held.new + empty_takes_of result) }
    ensures same { S.means.tells source.new ≡ S.means.tells source.old }
    ensures faults { S.means.faults source.old ≤ S.means.faults source.new }
    ensures no_fault { UnlessFailed result (S.means.faults source.new ≡ S.means.faults source.old) }
    ensures cause { OnFailed result (Rose (S.means.faults source.old) (S.means.faults source.new)) }
{
    let mut seen = 0;
    'takes: loop {
        if let Some(more) = memchr(b'\n', &held.octets()[seen..]) {
            return Found::Line(seen + more);
        }
        seen = held.octets().len();
        if is_past(room, seen) {
            return Found::Past;
        }
        match held.fill(source) {
            Ok(0) => return if seen == 0 {
                Found::End
            } else {
                Found::Last(seen)
            },
            Ok(_) => {}
            Err(_) => return Found::Failed,
        }
    }
}
