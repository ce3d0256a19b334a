// The entries of a half, read and folded one after another.
ghost use Rattle.std.specs.Prelude.{◌≡◌, ◌⊎◌, ◌<◌, ◌≤◌, ◌*◌, ◌-◌, ◌^◌, length, IfOk};
ghost use Rattle.board.specs.Counts.{Rose};
ghost use Rattle.board.specs.Meaning.{TellsFlash};
ghost use Rattle.board.specs.Reads.{ReadsOnly};
ghost use Rattle.commit_gate.specs.Entries.{area_of};
ghost use Rattle.journal_reader.specs.Steps.{FoldsTo, IsForward, StepsFrom, folded_from, kept_if};
ghost use Rattle.journal_reader.specs.Steps.{step_reads};
ghost use Rattle.journal_reader.specs.Stops.{OnFlash, UnlessFlash};

use crate::stop::ReadStop;
use board::{Board, Failed};
use commit_gate::{Area, Next, next_entry};
use std::alloc::Global;
use store_directory::{Directory, FoldFault};

/// What came of one page of a half.
#[derive(Clone, Copy, Debug, PartialEq, Eq)]
pub(crate) enum Step {
    /// An entry was folded, and this is the page behind it.
    Next(u32),
    /// The entries end there.
    End,
    /// They cannot be folded: a length is not lawful, a change is not spelled, or it does not fit.
    Refused,
}

// Folds an entry that ends before the page `next`.
fn fold_text(
    alloc: Global,
    directory: &mut Directory,
    text: &[u8],
    next: u32,
) -> Result<Step, ReadStop>
    requires { length text.now < 2 ^ 32 }

    ensures folded { IfOk result
        (FoldsTo text.now next directory.old.directory directory.new.directory) }
    ensures unread { OnFlash result ⊥ }
{
    match directory.fold(alloc, text) {
        Ok(()) => Ok(Step::Next(next)),
        Err(FoldFault::NoMemory) => Err(ReadStop::NoMemory),
        Err(_) => Ok(Step::Refused),
    }
}

// Folds the entry at the page `at`, if there is one.
fn fold_next<B: Board>(
    alloc: Global,
    board: &mut B,
    area: Area,
    at: u32,
    directory: &mut Directory,
    buf: &mut [u8],
) -> Result<Step, ReadStop>
    requires first { (area.first ≡ 3) ⊎ (area.first ≡ 5) }
    requires at { at ≤ 512 }
    requires room { 5120 ≤ length buf.old }

    ensures step { IfOk result (λ step. TellsFlash B.means board.old → StepsFrom
        (area_of (256 * area.first) (B.means.flash board.old).content) at
        directory.old.directory directory.new.directory step) }
    ensures range { IfOk result (IsForward at) }
    ensures reads { ReadsOnly B.means (step_reads at result) board.old board.new }
    ensures no_fault { UnlessFlash result
        ((B.means.counts board.new).flash_faults ≡ (B.means.counts board.old).flash_faults) }
    ensures cause { OnFlash result
        (Rose (B.means.counts board.old).flash_faults (B.means.counts board.new).flash_faults) }
{
    match next_entry(board, area, at, buf) {
        Ok(Next::Entry { text, next }) => fold_text(alloc, directory, text, next),
        Ok(Next::End) => Ok(Step::End),
        Ok(Next::Damaged { .. }) => Ok(Step::Refused),
        Err(Failed) => Err(ReadStop::Flash),
    }
}

/// Folds the entries of a half from the page `start` on, in their order. Whether all could be
/// folded. Each page is read once at most, into `buf`, which has at least 5,120 octets.
pub(crate) fn fold_all<B: Board>(
    alloc: Global,
    board: &mut B,
    area: Area,
    start: u32,
    directory: &mut Directory,
    buf: &mut [u8],
) -> Result<bool, ReadStop>
    requires first { (area.first ≡ 3) ⊎ (area.first ≡ 5) }
    requires start { start ≤ 512 }
    requires room { 5120 ≤ length buf.old }

    ensures folded { IfOk result (λ whole. TellsFlash B.means board.old → folded_from
        (area_of (256 * area.first) (B.means.flash board.old).content) start
        directory.old.directory ≡ kept_if whole directory.new.directory) }
    ensures reads { ReadsOnly B.means (512 - start) board.old board.new }
    ensures no_fault { UnlessFlash result
        ((B.means.counts board.new).flash_faults ≡ (B.means.counts board.old).flash_faults) }
    ensures cause { OnFlash result
        (Rose (B.means.counts board.old).flash_faults (B.means.counts board.new).flash_faults) }
{
    let mut at = start;
    loop {
        match fold_next(alloc, board, area, at, directory, buf) {
            Ok(Step::Next(next)) => at = next,
            Ok(Step::End) => return Ok(true),
            Ok(Step::Refused) => return Ok(false),
            Err(stop) => return Err(stop),
        }
    }
}
