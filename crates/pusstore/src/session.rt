// Sessions from what is read to what is written: all of the program but its words, its streams and its
// file.
ghost use Rattle.std.specs.Prelude.{◌≡◌, ◌≢◌, ◌⊎◌, ◌≤◌, ◌↔◌, ℕ, IsTrue};
ghost use Rattle.board.specs.Counts.{Rose};
ghost use Rattle.station.specs.Words.{AreFormat, AreFresh, AreGenerate, AreKnown, AreList, AreOfText, AreRun, texts_of};
ghost use Rattle.image_board.specs.FileBoard.{counts_of};
ghost use Rattle.image_board.specs.Reading.{octets_left};
ghost use Rattle.pusstore.specs.Filing.{IsRefused, IsUnwritten, SendsOnce};
ghost use Rattle.pusstore.specs.Printing.{EndsFormat, EndsGenerate, EndsPrinting, EndsRefused, EndsTaking, EndsUnheld};
ghost use Rattle.traffic_gen.specs.Traffic.{traffic_of};

use crate::outcome::{outcome, print_sent};
use board::MemBoard;
use image_board::{FileBoard, Reader, StdSource};
use station::{Ending, station};
use std::alloc::Global;
use std::io::Write;

/// A session with these words over the text that is read, on a new device in memory of 16 to 512
/// blocks, which holds no table until it is formatted. What it sent is written when it has ended.
pub fn session<R: Reader + Drop, W: Write>(
    alloc: Global,
    words: &Vec<String>,
    blocks: u32,
    input: R,
    output: &mut W,
) -> Ending
    requires least { 16 ≤ blocks }
    requires most { blocks ≤ 512 }
    ensures prints { AreFresh (texts_of words.now) → IsTrue R.tells
        → EndsPrinting blocks (octets_left (R.remaining input))
        (W.contents output.old) (W.contents output.new) result }
    ensures format { AreFormat (texts_of words.now)
        → EndsFormat (W.contents output.old) (W.contents output.new) result }
    ensures generate { (number : ℕ) (count : ℕ) → AreGenerate number count (texts_of words.now)
        → EndsGenerate blocks (traffic_of number count)
        (W.contents output.old) (W.contents output.new) result }
    ensures unheld { AreRun (texts_of words.now) ⊎ AreList (texts_of words.now)
        → EndsUnheld (W.contents output.old) (W.contents output.new) result }
    ensures words { ¬ (AreKnown (texts_of words.now))
        → EndsRefused (W.contents output.old) (W.contents output.new) result }
    ensures known { AreKnown (texts_of words.now) → result ≢ Ending.BadWords }
{
    let Ok(mut board) = MemBoard::new(alloc, blocks) else {
        return Ending::NoMemory;
    };
    let mut source = StdSource::new(input);
    let ending = station(alloc, words, &mut source, &mut board);
    let printed = print_sent(output, &board);
    outcome(ending, board.starved(), printed)
}

/// A session with these words over the text that is read, on a device in a file. A line leaves the
/// process before the next command is read.
pub fn file_session<R: Reader + Drop, W: Write>(
    alloc: Global,
    words: &Vec<String>,
    input: R,
    board: &mut FileBoard<W>,
) -> Ending
    ensures words { (result ≡ Ending.BadWords) ↔ ¬ (AreKnown (texts_of words.now)) }
    ensures unchanged { result ≡ Ending.BadWords → board.new ≡ board.old }
    ensures reading { AreOfText (texts_of words.now) → IsTrue R.tells
        → EndsTaking (octets_left (R.remaining input)) result }
    ensures format { AreFormat (texts_of words.now)
        → (result ≡ Ending.Done) ⊎ (result ≡ Ending.FlashFault) }
    ensures generate { (number : ℕ) (count : ℕ) → AreGenerate number count (texts_of words.now)
        → SendsOnce (counts_of board.old) (counts_of board.new) result }
    ensures list { AreList (texts_of words.now)
        → IsUnwritten (counts_of board.old) (counts_of board.new) }
    ensures refused { AreRun (texts_of words.now) ⊎ AreList (texts_of words.now)
        → result ≡ Ending.NotHeld → IsRefused (counts_of board.old) (counts_of board.new) }
    ensures flash_cause { result ≡ Ending.FlashFault
        → Rose (counts_of board.old).flash_faults (counts_of board.new).flash_faults }
    ensures link_cause { result ≡ Ending.LinkFault
        → Rose (counts_of board.old).link_faults (counts_of board.new).link_faults }
    ensures no_fault { (result ≢ Ending.FlashFault
        → (counts_of board.new).flash_faults ≡ (counts_of board.old).flash_faults)
        × (result ≢ Ending.LinkFault
        → (counts_of board.new).link_faults ≡ (counts_of board.old).link_faults) }
{
    let mut source = StdSource::new(input);
    station(alloc, words, &mut source, board)
}
