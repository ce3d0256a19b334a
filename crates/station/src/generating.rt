// Generated traffic, and the line that sums it up.
ghost use Rattle.std.specs.Prelude.{◌≡◌, ◌≤◌};
ghost use Rattle.board.specs.Meaning.{TellsFlash};
ghost use Rattle.meta_journal.specs.Standing.{AllFirm};
ghost use Rattle.muted_board.specs.Muted.{board_of, name_of};
ghost use Rattle.pst_model.specs.Table.{after_format};
ghost use Rattle.station.specs.Generating.{CarriesTraffic, Generates, SendsSummary, TrafficSent};
ghost use Rattle.station.specs.Station.{Held, IsCaused};
ghost use Rattle.station.specs.Tallies.{no_tally};
ghost use Rattle.traffic_gen.specs.Traffic.{traffic_of};

use crate::ending::Ending;
use crate::opening::open_session;
use crate::summary::write_summary;
use crate::tally::Tally;
use arrayvec::ArrayString;
use board::Board;
use muted_board::MutedBoard;
use std::alloc::Global;
use traffic_gen::{Traffic, traffic_reads_back};
use vault::Vault;

// Carries out the traffic on the table that the flash holds, over a board that takes lines alone.
fn carry_out_muted<B: Board>(
    alloc: Global,
    number: u64,
    count: u32,
    muted: &mut MutedBoard<'_, B>,
    tally: &mut Tally,
) -> Ending
    requires least { 1 ≤ count }
    requires most { count ≤ 100000 }
    requires firm { TellsFlash B.means (board_of muted.old) → AllFirm (B.means.flash (board_of muted.old)) }
    requires tally { tally.old ≡ no_tally }
    ensures carries { CarriesTraffic B.means (traffic_of number count) (board_of muted.old)
        (board_of muted.new) result tally.new }
    ensures same_reference { name_of muted.new ≡ name_of muted.old }
{
    traffic_reads_back();
    let mut traffic = Traffic::new(number, count);
    open_session(alloc, &mut traffic, muted, tally)
}

// Carries out the traffic on the table that the flash holds, and sends nothing.
fn carry_out_traffic<B: Board>(
    alloc: Global,
    number: u64,
    count: u32,
    board: &mut B,
    tally: &mut Tally,
) -> Ending
    requires least { 1 ≤ count }
    requires most { count ≤ 100000 }
    requires firm { TellsFlash B.means board.old → AllFirm (B.means.flash board.old) }
    requires tally { tally.old ≡ no_tally }
    ensures { CarriesTraffic B.means (traffic_of number count) board.old board.new result tally.new }
{
    let mut muted = MutedBoard::new(board);
    carry_out_muted(alloc, number, count, &mut muted, tally)
}

// Sends the line that sums up what was carried out.
fn send_summary<B: Board>(board: &mut B, tally: &Tally) -> Ending
    ensures { SendsSummary B.means tally.now board.old board.new result }
{
    let mut line = ArrayString::new();
    write_summary(tally, &mut line);
    match board.send(line.as_bytes()) {
        Ok(()) => Ending::Done,
        Err(_) => Ending::LinkFault,
    }
}

// Carries out the traffic on the table after a format, of which nothing is loose, and sums it up.
fn send_traffic<B: Board>(alloc: Global, number: u64, count: u32, board: &mut B) -> Ending
    requires least { 1 ≤ count }
    requires most { count ≤ 100000 }
    requires firm { TellsFlash B.means board.old → AllFirm (B.means.flash board.old) }
    ensures { TrafficSent B.means (traffic_of number count) board.old board.new result }
{
    let mut tally = Tally::default();
    match carry_out_traffic(alloc, number, count, board, &mut tally) {
        Ending::Done => send_summary(board, &tally),
        ending => ending,
    }
}

/// Formats the flash, carries out the traffic of a number, with 1 to 100,000 arrivals, without sending
/// its lines, and sends the line that sums it up.
pub fn generate<B: Board>(alloc: Global, number: u64, count: u32, board: &mut B) -> Ending
    requires least { 1 ≤ count }
    requires most { count ≤ 100000 }
    ensures generates { Generates B.means (traffic_of number count) board.old board.new result }
    ensures caused { IsCaused B.means board.old board.new result }
    ensures same { B.means.device board.new ≡ B.means.device board.old }
{
    match Vault::format(board) {
        Ok(()) => send_traffic(alloc, number, count, board),
        Err(_) => Ending::FlashFault,
    }
}
