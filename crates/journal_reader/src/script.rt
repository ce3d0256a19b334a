// A session of commits and switches on a device of 16 blocks, for tests.
ghost use Rattle.std.specs.Prelude.{◌≡◌, IfOk, IfSome, IsTrue};
ghost use Rattle.board.specs.Memory.{flash_of};
ghost use Rattle.board.specs.Meaning.{TellsFlash};
ghost use Rattle.meta_journal.specs.Standing.{StandsFor};

use crate::opening::{Opened, read_journal};
use board::{Board, Failed, MemBoard};
use std::alloc::Global;
use std::test::Fail;

/// One change of the journal.
#[derive(Clone, Copy)]
pub enum Act {
    /// The time and the reports become this number.
    Commit(u8),
    Switch,
}

/// Two switches, with commits behind each.
pub const SCRIPT: [Act; 9] = [
    Act::Switch,
    Act::Commit(1),
    Act::Commit(2),
    Act::Commit(3),
    Act::Switch,
    Act::Commit(4),
    Act::Commit(5),
    Act::Commit(6),
    Act::Commit(7),
];

/// The entry of a commit.
pub fn clock(number: u8) -> [u8; 9] {
    [1, 0, 0, 0, 0, 0, number, 0, number]
}

/// Opens the journal of a device.
pub fn open_on<B: Board>(alloc: Global, board: &mut B) -> Result<Option<Opened>, Fail>
    ensures stands { IfOk result (λ found. TellsFlash B.means board.old → IfSome found
        (λ opened. StandsFor opened.journal (B.means.flash board.new))) }
    ensures same { B.means.device board.new ≡ B.means.device board.old }
{
    let mut buf = vec![in alloc; 7; 20_480]?;
    let mut wear = vec![in alloc; 7; board.blocks() as usize]?;
    Ok(read_journal(alloc, board, &mut buf, &mut wear)?)
}

// Writes a checkpoint of the directory into the other half. Whether that succeeded.
fn turn<B: Board>(alloc: Global, board: &mut B, opened: &mut Opened) -> Result<bool, Fail>
    requires stands { TellsFlash B.means board.old
        → StandsFor opened.old.journal (B.means.flash board.old) }
    ensures stands { IfOk result (λ done. IsTrue done → TellsFlash B.means board.old
        → StandsFor opened.new.journal (B.means.flash board.new)) }
    ensures same { B.means.device board.new ≡ B.means.device board.old }
{
    let mut text = vec![in alloc; 7; 20_476]?;
    let length = opened.directory.write_checkpoint(&[0; 16], &mut text) as usize;
    if length < 1 || length > 20_476 {
        return Ok(false);
    }
    match opened.journal.switch(board, &text[..length]) {
        Ok(()) => Ok(true),
        Err(Failed) => Ok(false),
    }
}

/// Commits an entry, whether or not it fits the directory. Whether that succeeded.
pub fn add<B: Board>(
    alloc: Global,
    board: &mut B,
    opened: &mut Opened,
    entry: &[u8],
) -> Result<bool, Fail>
    requires stands { TellsFlash B.means board.old
        → StandsFor opened.old.journal (B.means.flash board.old) }
    ensures stands { IfOk result (λ done. IsTrue done → TellsFlash B.means board.old
        → StandsFor opened.new.journal (B.means.flash board.new)) }
    ensures same { B.means.device board.new ≡ B.means.device board.old }
{
    if opened.journal.room() < 21 || entry.is_empty() || entry.len() > 5116 {
        return Ok(false);
    }
    let _ = opened.directory.fold(alloc, entry);
    match opened.journal.commit(board, entry) {
        Ok(()) => Ok(true),
        Err(Failed) => Ok(false),
    }
}

/// Carries out an act. Whether it succeeded.
pub fn perform<B: Board>(
    alloc: Global,
    board: &mut B,
    opened: &mut Opened,
    act: Act,
) -> Result<bool, Fail>
    requires stands { TellsFlash B.means board.old
        → StandsFor opened.old.journal (B.means.flash board.old) }
    ensures stands { IfOk result (λ done. IsTrue done → TellsFlash B.means board.old
        → StandsFor opened.new.journal (B.means.flash board.new)) }
    ensures same { B.means.device board.new ≡ B.means.device board.old }
{
    match act {
        Act::Commit(number) => add(alloc, board, opened, &clock(number)),
        Act::Switch => turn(alloc, board, opened),
    }
}

/// Fills a half by commits of two pages, until the room is at most so many. Whether each succeeded.
pub fn fill(
    alloc: Global,
    board: &mut MemBoard,
    opened: &mut Opened,
    room: u32,
) -> Result<bool, Fail>
    requires stands { StandsFor opened.old.journal (flash_of board.old) }
    ensures stands { IfOk result (λ done. IsTrue done
        → StandsFor opened.new.journal (flash_of board.new)) }
{
    for _ in 0..256 {
        if opened.journal.room() <= room {
            return Ok(true);
        }
        if !add(alloc, board, opened, &clock(9))? {
            return Ok(false);
        }
    }
    Ok(true)
}

/// Carries out the script up to the first failure. Returns the moment at which each commit was
/// acknowledged.
pub fn run_script(alloc: Global, board: &mut MemBoard) -> Result<Vec<u64>, Fail> {
    let mut acknowledged = Vec::new(alloc);
    let Some(mut opened) = open_on(alloc, board)? else {
        return Ok(acknowledged);
    };
    for place in 0..SCRIPT.len() {
        if !perform(alloc, board, &mut opened, SCRIPT[place])? {
            return Ok(acknowledged);
        }
        if let Act::Commit(_) = SCRIPT[place] {
            acknowledged.push(board.moments())?;
        }
    }
    Ok(acknowledged)
}
