// The journal of a device, as it is opened.
//
// Order: the three root pages; then the half that they agree on, or both halves if they are split,
// and these have to hold the same directory. Nothing is written.
ghost use Rattle.std.specs.Prelude.{◌≡◌, ◌≤◌, ◌+◌, None, Some, length, IfOk, IfSome, MatchOption};
ghost use Rattle.board.specs.Counts.{Rose};
ghost use Rattle.board.specs.Meaning.{TellsFlash};
ghost use Rattle.board.specs.Reads.{ReadsOnly};
ghost use Rattle.meta_journal.specs.Directories.{chosen, directory_of, half_area, is_own};
ghost use Rattle.meta_journal.specs.Halves.{half_of};
ghost use Rattle.meta_journal.specs.Standing.{StandsFor};
ghost use Rattle.root_vote.specs.Roots.{LeadsTo, choice_of};
ghost use Rattle.store_directory.specs.Same.{same_directory};
ghost use Rattle.journal_reader.specs.Halves.{behind_root, both_halves, chosen_read, counts_of_half};
ghost use Rattle.journal_reader.specs.Halves.{directory_if, directory_read, half_reads, halves_in};
ghost use Rattle.journal_reader.specs.Stops.{OnFlash, UnlessFlash};

use crate::half::read_half;
use crate::stop::ReadStop;
use board::{Board, Failed};
use commit_gate::Area;
use meta_journal::{Journal, half_of};
use root_vote::{Choice, Root, read_roots};
use std::alloc::Global;
use store_directory::Directory;

/// The version of the format.
const VERSION: u8 = 1;

/// A journal that was read.
#[derive(Drop)]
pub struct Opened {
    /// The journal. Its room is 0, since no page is known to be clean: the first change of the
    /// directory has to be a switch.
    pub journal: Journal,
    /// The directory that the device holds.
    pub directory: Directory,
}

// Whether a root is of this format, and of a device of so many blocks.
fn is_own(root: Root, blocks: usize) -> bool
    ensures { result ≡ is_own blocks root }
{
    root.version == VERSION && root.blocks as usize == blocks
}

// The directory, if the other is the same.
fn if_same(directory: Directory, other: &Directory) -> Option<Directory>
    ensures { directory_read result
        ≡ directory_if (same_directory directory.directory other.now.directory)
        directory.directory }
{
    if directory.same(other) {
        Some(directory)
    } else {
        None
    }
}

// The directory that both halves hold. The erase counts are those of the half that `root` names.
fn read_both<B: Board>(
    alloc: Global,
    board: &mut B,
    root: Root,
    buf: &mut [u8],
    wear: &mut [u32],
) -> Result<Option<Directory>, ReadStop>
    requires room { 20480 ≤ length buf.old }

    ensures held { IfOk result (λ found. TellsFlash B.means board.old → both_halves
        (halves_in (length wear.old) (B.means.flash board.old).content 0)
        (halves_in (length wear.old) (B.means.flash board.old).content 1)
        ≡ directory_read found) }
    ensures wear { IfOk result (λ found. TellsFlash B.means board.old → IfSome found
        (λ d. counts_of_half (length wear.old)
        (half_area (half_of root) (B.means.flash board.old).content) ≡ Some wear.new)) }
    ensures reads { ReadsOnly B.means 1024 board.old board.new }
    ensures no_fault { UnlessFlash result
        ((B.means.counts board.new).flash_faults ≡ (B.means.counts board.old).flash_faults) }
    ensures cause { OnFlash result
        (Rose (B.means.counts board.old).flash_faults (B.means.counts board.new).flash_faults) }
{
    let own = half_of(root);
    let other = match read_half(
        alloc,
        board,
        Area {
            first: 8 - own.first,
        },
        buf,
        wear,
    ) {
        Ok(Some(directory)) => directory,
        Ok(None) => return Ok(None),
        Err(stop) => return Err(stop),
    };
    match read_half(alloc, board, own, buf, wear) {
        Ok(Some(directory)) => Ok(if_same(directory, &other)),
        Ok(None) => Ok(None),
        Err(stop) => Err(stop),
    }
}

// Puts the root in front of what was read.
fn with_root(
    root: Root,
    read: Result<Option<Directory>, ReadStop>,
) -> Result<Option<(Root, Directory)>, ReadStop>
    ensures { result ≡ behind_root root read }
{
    match read {
        Ok(Some(directory)) => Ok(Some((root, directory))),
        Ok(None) => Ok(None),
        Err(stop) => Err(stop),
    }
}

// The directory by a choice of the roots, and the root by which the choice is repaired.
fn read_chosen<B: Board>(
    alloc: Global,
    board: &mut B,
    choice: Choice,
    buf: &mut [u8],
    wear: &mut [u32],
) -> Result<Option<(Root, Directory)>, ReadStop>
    requires room { 20480 ≤ length buf.old }

    ensures held { IfOk result (λ found. TellsFlash B.means board.old → chosen (length wear.old)
        choice (halves_in (length wear.old) (B.means.flash board.old).content)
        ≡ chosen_read found) }
    ensures leads { IfOk result (λ found. IfSome found (λ pair. LeadsTo pair.0 choice)) }
    ensures wear { IfOk result (λ found. TellsFlash B.means board.old → IfSome found
        (λ pair. counts_of_half (length wear.old)
        (half_area (half_of pair.0) (B.means.flash board.old).content) ≡ Some wear.new)) }
    ensures reads { ReadsOnly B.means (half_reads choice) board.old board.new }
    ensures no_fault { UnlessFlash result
        ((B.means.counts board.new).flash_faults ≡ (B.means.counts board.old).flash_faults) }
    ensures cause { OnFlash result
        (Rose (B.means.counts board.old).flash_faults (B.means.counts board.new).flash_faults) }
{
    let blocks = wear.len();
    match choice {
        Choice::Agreed(root) if is_own(root, blocks) => {
            with_root(root, read_half(alloc, board, half_of(root), buf, wear))
        }
        Choice::Split { first, last } if is_own(first, blocks) && is_own(last, blocks) => {
            with_root(first, read_both(alloc, board, first, buf, wear))
        }
        _ => Ok(None),
    }
}

/// Reads the journal of a device and the directory that it holds. None: it holds no directory.
/// `wear` has as many numbers as the device has blocks. They are then the erase counts of the
/// checkpoint in the half that the journal's root names, and any numbers if there is no journal.
/// `buf` has at least 20,480 octets, which may be any afterwards. Each root page, and each page of
/// the halves that count, is read once at most, and nothing is written.
///
/// `Flash`: a read failed. `NoMemory`: the directory found no memory.
pub fn read_journal<B: Board>(
    alloc: Global,
    board: &mut B,
    buf: &mut [u8],
    wear: &mut [u32],
) -> Result<Option<Opened>, ReadStop>
    requires blocks { length wear.old ≡ (B.means.device board.old).blocks }
    requires room { 20480 ≤ length buf.old }

    // If the flash is told, this is exactly the directory that it holds.
    ensures held { IfOk result (λ found. TellsFlash B.means board.old → MatchOption found
        (directory_of (B.means.device board.old).blocks (B.means.flash board.old).content ≡ None)
        (λ opened. directory_of (B.means.device board.old).blocks
        (B.means.flash board.old).content ≡ Some opened.directory.directory)) }
    ensures stands { IfOk result (λ found. TellsFlash B.means board.old → IfSome found
        (λ opened. StandsFor opened.journal (B.means.flash board.new))) }
    ensures wear { IfOk result (λ found. TellsFlash B.means board.old → IfSome found
        (λ opened. counts_of_half (B.means.device board.old).blocks
        (half_area (half_of opened.journal.root) (B.means.flash board.old).content)
        ≡ Some wear.new)) }

    ensures room { IfOk result (λ found. IfSome found (λ opened. opened.journal.room ≡ 0)) }
    ensures reads { ReadsOnly B.means 1027 board.old board.new }
    ensures few_reads { TellsFlash B.means board.old → ReadsOnly B.means
        (3 + half_reads (choice_of (B.means.flash board.old).content)) board.old board.new }
    ensures no_fault { UnlessFlash result
        ((B.means.counts board.new).flash_faults ≡ (B.means.counts board.old).flash_faults) }
    ensures cause { OnFlash result
        (Rose (B.means.counts board.old).flash_faults (B.means.counts board.new).flash_faults) }
{
    let votes = match read_roots(board) {
        Ok(votes) => votes,
        Err(Failed) => return Err(ReadStop::Flash),
    };
    match read_chosen(alloc, board, votes.choice(), buf, wear) {
        Ok(Some((root, directory))) => Ok(Some(Opened {
            journal: Journal::at(root, votes),
            directory,
        })),
        Ok(None) => Ok(None),
        Err(stop) => Err(stop),
    }
}
