// A session with the packet store, by its word.
ghost use Rattle.std.specs.Prelude.{◌≡◌, ◌≤◌, ◌+◌, ◌++◌, ◌↔◌, ℕ, IsTrue};
ghost use Rattle.board.specs.Counts.{Rose};
ghost use Rattle.board.specs.Meaning.{TellsFlash};
ghost use Rattle.station.specs.Reading.{EndsAsTold, Reads, taken_of};
ghost use Rattle.station.specs.Station.{BeginsFresh, Formats, HasCauses, Held, Keeps, Lists, Runs};
ghost use Rattle.station.specs.Generating.{Generates};
ghost use Rattle.station.specs.Words.{AreFormat, AreFresh, AreGenerate, AreKnown, AreList, AreOfText, AreRun, texts_of};
ghost use Rattle.traffic_gen.specs.Traffic.{traffic_of};
ghost use Rattle.pst_model.specs.Table.{Table, after_format};
ghost use Rattle.station.specs.Working.{AreEmpty, SessionWorks};

use crate::ending::Ending;
use crate::formatting::format_only;
use crate::generating::generate;
use crate::opening::{fresh_session, run_session};
use crate::sending::send_held;
use crate::words::{are_only, traffic_in};
use board::{Board, Source};
use std::alloc::Global;

/// A session, by its words.
///
/// `run` opens the table that the flash of `board` holds, and carries out the commands of the text of
/// `source` on it: each is durable before its replies and retrieved lines are sent on the link.
/// `fresh` formats the flash first. `format` does that alone. `list` sends the listing of the table.
/// `generate` and two numbers formats the flash, carries out the generated traffic of the first number,
/// with as many arrivals as the second one says, and sends the line that sums it up alone.
///
/// `run` and `list` begin with a barrier: what they read is then durable, whatever came before.
pub fn station<B: Board, S: Source>(
    alloc: Global,
    words: &Vec<String>,
    source: &mut S,
    board: &mut B,
) -> Ending
    ensures words { (result ≡ Ending.BadWords) ↔ ¬ (AreKnown (texts_of words.now)) }
    ensures unchanged { result ≡ Ending.BadWords
        → (board.new ≡ board.old) × (source.new ≡ source.old) }

    // What each word does.
    ensures run { AreRun (texts_of words.now)
        → Runs B.means S.means board.old board.new source.old source.new result }
    ensures fresh { AreFresh (texts_of words.now)
        → BeginsFresh B.means S.means board.old board.new source.old source.new result }
    ensures format { AreFormat (texts_of words.now)
        → Formats B.means board.old board.new result × (source.new ≡ source.old) }
    ensures list { AreList (texts_of words.now)
        → Lists B.means board.old board.new result × (source.new ≡ source.old) }

    ensures generate { (number : ℕ) (count : ℕ) → AreGenerate number count (texts_of words.now)
        → Generates B.means (traffic_of number count) board.old board.new result
        × (source.new ≡ source.old) }
    // A listing costs one barrier at most.
    ensures list_work { AreList (texts_of words.now)
        → (B.means.counts board.new).barriers ≤ (B.means.counts board.old).barriers + 1 }

    // The work of a session whose text is arrivals, grants and idle times, on a table without packets.
    ensures run_work { AreRun (texts_of words.now) → SessionWorks B.means S.means 0
        (λ table. Held B.means board.old table × AreEmpty table.stores)
        board.old board.new source.old result }
    ensures fresh_work { AreFresh (texts_of words.now) → SessionWorks B.means S.means 12
        (λ table. table ≡ after_format) board.old board.new source.old result }

    // What holds of each word, on every board.
    ensures taken { IsTrue (S.means.tells source.old) → S.means.left source.old
        ≡ taken_of (S.means.left source.old) (S.means.left source.new) ++ S.means.left source.new }
    ensures reading { AreOfText (texts_of words.now) → IsTrue (S.means.tells source.old)
        → Reads (S.means.left source.old) (S.means.left source.new) result }
    ensures causes { HasCauses B.means S.means board.old board.new source.old source.new result }
    ensures complete { AreOfText (texts_of words.now) → IsTrue (S.means.tells source.old)
        → TellsFlash B.means board.old
        → (AreRun (texts_of words.now) → (table : Table) × Held B.means board.old table)
        → ¬ (Rose (B.means.counts board.old).flash_faults (B.means.counts board.new).flash_faults)
        → ¬ (Rose (B.means.counts board.old).link_faults (B.means.counts board.new).link_faults)
        → ¬ (Rose (S.means.faults source.old) (S.means.faults source.new))
        → EndsAsTold (S.means.left source.old) result }
    ensures keeps { Keeps B.means S.means board.old board.new source.old source.new }
{
    if are_only(words, "run") {
        return run_session(alloc, source, board);
    }
    if are_only(words, "fresh") {
        return fresh_session(alloc, source, board);
    }
    if are_only(words, "format") {
        return format_only(board);
    }
    if are_only(words, "list") {
        return send_held(alloc, board);
    }
    match traffic_in(words) {
        Some((number, count)) => generate(alloc, number, count, board),
        None => Ending::BadWords,
    }
}
