// Sessions that carry out a text: on the table that the flash holds, or on the one after a format.
ghost use Rattle.std.specs.Prelude.{◌≡◌, ◌≢◌, ◌++◌, IsTrue};
ghost use Rattle.board.specs.Meaning.{TellsFlash};
ghost use Rattle.station.specs.Opening.{Opened};
ghost use Rattle.station.specs.Reading.{Reads, taken_of};
ghost use Rattle.station.specs.Tallies.{no_tally};
ghost use Rattle.station.specs.Station.{BeginsFresh, HasCauses, Held, Keeps, Runs};
ghost use Rattle.station.specs.Working.{AreEmpty, SessionWorks};
ghost use Rattle.meta_journal.specs.Standing.{AllFirm};
ghost use Rattle.pst_model.specs.Table.{after_format};

use crate::carrying::carry_out_text;
use crate::ending::Ending;
use crate::tally::Tally;
use board::{Board, Source};
use std::alloc::Global;
use vault::{OpenFault, Vault};

/// Opens the table that the flash holds, of which nothing is loose, and carries out the text on it.
pub fn open_session<B: Board, S: Source>(
    alloc: Global,
    source: &mut S,
    board: &mut B,
    tally: &mut Tally,
) -> Ending
    requires firm { TellsFlash B.means board.old → AllFirm (B.means.flash board.old) }
    requires tally { tally.old ≡ no_tally }
    ensures { Opened B.means S.means board.old board.new source.old source.new result tally.new }
{
    match Vault::open(alloc, board) {
        Ok(vault) => carry_out_text(alloc, vault, source, board, tally),
        Err(OpenFault::NotHeld) => Ending::NotHeld,
        Err(OpenFault::Flash) => Ending::FlashFault,
        Err(OpenFault::NoMemory) => Ending::NoMemory,
    }
}

/// Carries out the text on the table that the flash holds. A barrier goes before, so that what is
/// read is durable.
pub fn run_session<B: Board, S: Source>(alloc: Global, source: &mut S, board: &mut B) -> Ending
    ensures runs { Runs B.means S.means board.old board.new source.old source.new result }
    ensures work { SessionWorks B.means S.means 0
        (λ table. Held B.means board.old table × AreEmpty table.stores)
        board.old board.new source.old result }
    ensures taken { IsTrue (S.means.tells source.old) → S.means.left source.old
        ≡ taken_of (S.means.left source.old) (S.means.left source.new) ++ S.means.left source.new }
    ensures reading { IsTrue (S.means.tells source.old)
        → Reads (S.means.left source.old) (S.means.left source.new) result }
    ensures known { result ≢ Ending.BadWords }
    ensures causes { HasCauses B.means S.means board.old board.new source.old source.new result }
    ensures keeps { Keeps B.means S.means board.old board.new source.old source.new }
{
    match board.barrier() {
        Ok(()) => open_session(alloc, source, board, &mut Tally::default()),
        Err(_) => Ending::FlashFault,
    }
}

/// Formats the flash, and carries out the text on the table after that.
pub fn fresh_session<B: Board, S: Source>(alloc: Global, source: &mut S, board: &mut B) -> Ending
    ensures begins { BeginsFresh B.means S.means board.old board.new source.old source.new result }
    ensures work { SessionWorks B.means S.means 12 (λ table. table ≡ after_format)
        board.old board.new source.old result }
    ensures taken { IsTrue (S.means.tells source.old) → S.means.left source.old
        ≡ taken_of (S.means.left source.old) (S.means.left source.new) ++ S.means.left source.new }
    ensures reading { IsTrue (S.means.tells source.old)
        → Reads (S.means.left source.old) (S.means.left source.new) result }
    ensures known { result ≢ Ending.BadWords }
    ensures causes { HasCauses B.means S.means board.old board.new source.old source.new result }
    ensures keeps { Keeps B.means S.means board.old board.new source.old source.new }
{
    match Vault::format(board) {
        Ok(()) => open_session(alloc, source, board, &mut Tally::default()),
        Err(_) => Ending::FlashFault,
    }
}
