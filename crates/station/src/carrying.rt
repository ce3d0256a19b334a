// The commands of a text carried out on the table for which an open vault stands.
ghost use Rattle.std.specs.Prelude.{◌≡◌, ◌≤◌, ◌<◌, ◌^◌, true, IsTrue, IfSome, IfNone, OnOk};
ghost use Rattle.handler.specs.Carrying.{Answers, IsBoardOf};
ghost use Rattle.station.specs.Carrying.{Carried, Ended};
ghost use Rattle.station.specs.Endings.{ending_after};
ghost use Rattle.station.specs.Reading.{IsStart, text_limit};
ghost use Rattle.station.specs.Tallies.{IsSmall, no_tally};
ghost use Rattle.station.specs.Working.{TurnWorks};
ghost use Rattle.pst_model.specs.Run.{step};
ghost use Rattle.session_text.specs.Lending.{reader_of};
ghost use Rattle.session_text.specs.Shown.{command_of, moment_of};
ghost use Rattle.vault.specs.Memory.{IsSound};

use crate::ending::Ending;
use crate::tally::Tally;
use board::{Board, Source};
use handler::{Handler, HandlerFault, Sent};
use session_text::{Command, LineEnd, Lines};
use std::alloc::Global;
use vault::Vault;

/// The octets of a text that are taken, at most: 2^40.
const TEXT_LIMIT: u64 = 1_099_511_627_776;

// Carries out one command.
fn carry_out<B: Board>(
    alloc: Global,
    handler: &mut Handler,
    board: &mut B,
    command: Command<'_>,
) -> Result<Sent, HandlerFault>
    requires is_open { handler.old.is_open ≡ true }
    requires moment { moment_of command < 2 ^ 48 }
    requires board { IsBoardOf B.means handler.old.vault board.old }
    ensures answers { Answers B.means board.old board.new handler.old handler.new
        (λ number table. step (B.means.device board.old).blocks number (command_of command.entry) table)
        result }
    ensures work { OnOk result (TurnWorks B.means board.old board.new (command_of command.entry)
        handler.old.vault handler.new.vault) }
{
    match command {
        Command::Arrival { moment, packet } => handler.arrival(board, moment, packet),
        Command::Request { moment, packet } => handler.request(alloc, board, moment, packet),
        Command::Grant { moment } => handler.grant(board, moment),
        Command::Idle { moment } => handler.idle(board, moment),
    }
}

// Makes durable what is pending, before the session ends so.
fn finish<B: Board>(handler: &mut Handler, board: &mut B, ending: Ending) -> Ending
    requires is_open { handler.old.is_open ≡ true }
    requires board { IsBoardOf B.means handler.old.vault board.old }
    ensures board { board.new ≡ board.old }
    ensures ending { result ≡ ending }
    ensures sound { IsSound handler.old.vault }
{
    match handler.finish(board) {
        Ok(()) => ending,
        Err(fault) => ending_of(fault),
    }
}

// How a session ends where a command was not carried out.
fn ending_of(fault: HandlerFault) -> Ending
    ensures { result ≡ ending_after fault }
{
    match fault {
        HandlerFault::Flash => Ending::FlashFault,
        HandlerFault::Link => Ending::LinkFault,
        HandlerFault::Mismatch {
            block,
            page,
            kept,
            found,
        } => Ending::Mismatch {
            block,
            page,
            kept,
            found,
        },
        HandlerFault::NoMemory => Ending::NoMemory,
    }
}

// Reads the next command, carries it out and counts it. None says that the session goes on.
fn take_turn<B: Board, S: Source>(
    alloc: Global,
    lines: &mut Lines,
    handler: &mut Handler,
    source: &mut S,
    board: &mut B,
    tally: &mut Tally,
) -> Option<Ending>
    requires is_open { handler.old.is_open ≡ true }
    requires live { IsTrue (reader_of lines.old).live }
    requires short { (reader_of lines.old).place ≤ text_limit }
    requires small { IsSmall (reader_of lines.old).place tally.old }
    requires board { IsBoardOf B.means handler.old.vault board.old }
    ensures goes_on { IfNone result ((first : _) (origin : _) (begun : _)
        → Carried B.means S.means first board.old origin source.old begun (reader_of lines.old)
        handler.old.vault tally.old
        → Carried B.means S.means first board.new origin source.new begun (reader_of lines.new)
        handler.new.vault tally.new) }
    ensures ends { IfSome result (λ ending. (first : _) (origin : _) (begun : _)
        → Carried B.means S.means first board.old origin source.old begun (reader_of lines.old)
        handler.old.vault tally.old
        → Ended B.means S.means first board.new origin source.new begun ending tally.new) }
    ensures small { IfNone result (IsSmall (reader_of lines.new).place tally.new) }
    ensures progress { IfNone result ((reader_of lines.old).place < (reader_of lines.new).place) }
    ensures within { (reader_of lines.new).place ≤ (reader_of lines.new).limit }
    ensures limit { (reader_of lines.new).limit ≡ (reader_of lines.old).limit }
    ensures live { IfNone result (IsTrue (reader_of lines.new).live) }
    ensures is_open { IfNone result (handler.new.is_open ≡ true) }
    ensures board { IfNone result (IsBoardOf B.means handler.new.vault board.new) }
{
    match lines.next_line(source) {
        Ok(Some(command)) => match carry_out(alloc, handler, board, command) {
            Ok(sent) => {
                tally.add(sent);
                None
            }
            Err(fault) => Some(ending_of(fault)),
        },
        Ok(None) => Some(finish(handler, board, Ending::Done)),
        Err(LineEnd::Bad { line, why }) => {
            Some(finish(handler, board, Ending::BadLine { line, why }))
        }
        Err(LineEnd::Source) => Some(finish(handler, board, Ending::SourceFault)),
    }
}

// Carries out the commands of the text from its begin.
fn carry_out_all<B: Board, S: Source>(
    alloc: Global,
    lines: &mut Lines,
    handler: &mut Handler,
    source: &mut S,
    board: &mut B,
    tally: &mut Tally,
) -> Ending
    requires is_open { handler.old.is_open ≡ true }
    requires reader { IsStart (reader_of lines.old) }
    requires sound { IsSound handler.old.vault }
    requires board { IsBoardOf B.means handler.old.vault board.old }
    requires tally { tally.old ≡ no_tally }
    ensures { Ended B.means S.means board.old board.new source.old source.new handler.old.vault
        result tally.new }
{
    'commands: loop {
        if let Some(ending) = take_turn(alloc, lines, handler, source, board, tally) {
            return ending;
        }
    }
}

/// Carries out the commands of the text of `source` on the table for which the vault stands, if the
/// board tells its flash. Each is durable before its replies and retrieved lines are sent, and then
/// counted.
pub fn carry_out_text<B: Board, S: Source>(
    alloc: Global,
    vault: Vault,
    source: &mut S,
    board: &mut B,
    tally: &mut Tally,
) -> Ending
    requires is_open { vault.is_open ≡ true }
    requires sound { IsSound vault }
    requires board { IsBoardOf B.means vault board.old }
    requires tally { tally.old ≡ no_tally }
    ensures { Ended B.means S.means board.old board.new source.old source.new vault result
        tally.new }
{
    let Ok(mut lines) = Lines::new(alloc, TEXT_LIMIT) else {
        return Ending::NoMemory;
    };
    let Ok(mut handler) = Handler::new(alloc, vault) else {
        return Ending::NoMemory;
    };
    carry_out_all(alloc, &mut lines, &mut handler, source, board, tally)
}
