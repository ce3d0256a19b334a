// A half of the journal, read whole.
ghost use Rattle.std.specs.Prelude.{◌≡◌, ◌⊎◌, ◌≤◌, ◌*◌, ◌-◌, None, Some, length, IfOk, IfSome};
ghost use Rattle.std.specs.Prelude.{MatchOption};
ghost use Rattle.board.specs.Counts.{Rose};
ghost use Rattle.board.specs.Meaning.{TellsFlash};
ghost use Rattle.board.specs.Reads.{ReadsOnly};
ghost use Rattle.commit_gate.specs.Entries.{area_of};
ghost use Rattle.meta_journal.specs.Directories.{directory_in};
ghost use Rattle.store_directory.specs.Checkpoints.{read_checkpoint};
ghost use Rattle.journal_reader.specs.Halves.{counts_of_half, directory_read};
ghost use Rattle.journal_reader.specs.Steps.{folded_from, front_reads};
ghost use Rattle.journal_reader.specs.Stops.{OnFlash, UnlessFlash};

use crate::folding::fold_all;
use crate::stop::ReadStop;
use board::{Board, Failed};
use commit_gate::Area;
use meta_journal::checkpoint_of;
use std::alloc::Global;
use store_directory::{Directory, FoldFault};

// The directory that the text of a checkpoint spells, with the page behind it.
fn spelled_by(
    alloc: Global,
    text: &[u8],
    next: u32,
    wear: &mut [u32],
) -> Result<Option<(Directory, u32)>, ReadStop>
    ensures spelled { IfOk result (λ found. MatchOption found
        (read_checkpoint (length wear.old) text.now ≡ None)
        (λ front. (read_checkpoint (length wear.old) text.now
        ≡ Some (record { directory = front.0.directory; wear = wear.new })) × (front.1 ≡ next))) }
    ensures unread { OnFlash result ⊥ }
{
    match Directory::read_checkpoint(alloc, text, wear) {
        Ok(directory) => Ok(Some((directory, next))),
        Err(FoldFault::NoMemory) => Err(ReadStop::NoMemory),
        Err(_) => Ok(None),
    }
}

// The directory of the half's checkpoint, with the page behind it.
fn read_front<B: Board>(
    alloc: Global,
    board: &mut B,
    area: Area,
    buf: &mut [u8],
    wear: &mut [u32],
) -> Result<Option<(Directory, u32)>, ReadStop>
    requires first { (area.first ≡ 3) ⊎ (area.first ≡ 5) }
    requires room { 20480 ≤ length buf.old }

    ensures held { IfOk result (λ found. TellsFlash B.means board.old → MatchOption found
        (directory_in (length wear.old)
        (area_of (256 * area.first) (B.means.flash board.old).content) ≡ None)
        (λ front. directory_in (length wear.old)
        (area_of (256 * area.first) (B.means.flash board.old).content) ≡ folded_from
        (area_of (256 * area.first) (B.means.flash board.old).content)
        front.1 front.0.directory)) }
    ensures wear { IfOk result (λ found. TellsFlash B.means board.old → IfSome found
        (λ front. counts_of_half (length wear.old)
        (area_of (256 * area.first) (B.means.flash board.old).content) ≡ Some wear.new)) }
    ensures range { IfOk result (λ found. IfSome found (λ front. front.1 ≤ 80)) }
    ensures reads { ReadsOnly B.means (front_reads result) board.old board.new }
    ensures no_fault { UnlessFlash result
        ((B.means.counts board.new).flash_faults ≡ (B.means.counts board.old).flash_faults) }
    ensures cause { OnFlash result
        (Rose (B.means.counts board.old).flash_faults (B.means.counts board.new).flash_faults) }
{
    match checkpoint_of(board, area, buf) {
        Ok(Some((text, next))) => spelled_by(alloc, text, next, wear),
        Ok(None) => Ok(None),
        Err(Failed) => Err(ReadStop::Flash),
    }
}

/// The directory that a half holds, None if it holds none. `wear` has as many numbers as the device
/// has blocks; they are then the erase counts of the half's checkpoint, and any if there is no
/// directory. Each page of the half is read once at most, into `buf`, which has at least 20,480
/// octets.
pub(crate) fn read_half<B: Board>(
    alloc: Global,
    board: &mut B,
    area: Area,
    buf: &mut [u8],
    wear: &mut [u32],
) -> Result<Option<Directory>, ReadStop>
    requires first { (area.first ≡ 3) ⊎ (area.first ≡ 5) }
    requires room { 20480 ≤ length buf.old }

    ensures held { IfOk result (λ found. TellsFlash B.means board.old → directory_in
        (length wear.old) (area_of (256 * area.first) (B.means.flash board.old).content)
        ≡ directory_read found) }
    ensures wear { IfOk result (λ found. TellsFlash B.means board.old → IfSome found
        (λ d. counts_of_half (length wear.old)
        (area_of (256 * area.first) (B.means.flash board.old).content) ≡ Some wear.new)) }
    ensures reads { ReadsOnly B.means 512 board.old board.new }
    ensures no_fault { UnlessFlash result
        ((B.means.counts board.new).flash_faults ≡ (B.means.counts board.old).flash_faults) }
    ensures cause { OnFlash result
        (Rose (B.means.counts board.old).flash_faults (B.means.counts board.new).flash_faults) }
{
    let (mut directory, start) = match read_front(alloc, board, area, buf, wear) {
        Ok(Some(front)) => front,
        Ok(None) => return Ok(None),
        Err(stop) => return Err(stop),
    };
    match fold_all(alloc, board, area, start, &mut directory, buf) {
        Ok(true) => Ok(Some(directory)),
        Ok(false) => Ok(None),
        Err(stop) => Err(stop),
    }
}
