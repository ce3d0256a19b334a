// A format begins a journal on a flash that may hold anything.
//
// Order: both blocks of half 0 are erased, barrier; the checkpoint's pages, barrier; then the three
// roots of generation 0, one after another.
// 1. The checkpoint is firm before the first root names its half.
// 2. So as soon as two roots are firm, each image holds the directory of the checkpoint.
// 3. Until then the roots from before may count, over a half that is gone: such an image may hold
//    no directory.
ghost use Rattle.std.specs.Prelude.{◌≡◌, ℕ, List, Some, OnOk, OnErr};
ghost use Rattle.board.specs.Counts.{Rose};
ghost use Rattle.board.specs.Flash.{IsImage};
ghost use Rattle.board.specs.Meaning.{TellsFlash};
ghost use Rattle.board.specs.Touches.{Touches};
ghost use Rattle.store_directory.specs.Format.{first_directory};
ghost use Rattle.meta_journal.specs.Directories.{directory_of};
ghost use Rattle.meta_journal.specs.Formats.{IsFormatted, after_format, first_pages};
ghost use Rattle.meta_journal.specs.Halves.{first_root, format_pages};
ghost use Rattle.meta_journal.specs.Journals.{IsJournal};

use crate::half::begin_half;
use board::{Board, Failed};
use commit_gate::Area;
use root_vote::{Root, plant};
use store_directory::write_first_checkpoint;

/// The octets of the longest first checkpoint: that of 512 blocks.
const LONGEST: usize = 47 + 4 * 512;

const VERSION: u8 = 1;

/// Begins a journal on a device, whatever it holds: the directory of one store that takes every
/// packet. It takes no memory. `Failed`: a call of the board failed; the blocks 0 to 4 may hold any
/// octets, and the others are as they were. A power loss before `Ok` may leave no directory.
pub fn format<B: Board>(board: &mut B) -> Result<(), Failed>
    ensures flash { OnOk result (TellsFlash B.means board.old → B.means.flash board.new
        ≡ after_format (B.means.device board.old).blocks (B.means.flash board.old)) }
    ensures seen { OnOk result (TellsFlash B.means board.old → B.means.images
        board.new (B.means.moment board.new) (B.means.flash board.new).content) }
    ensures formatted { OnOk result (TellsFlash B.means board.old
        → IsFormatted (B.means.device board.old).blocks (B.means.flash board.new)) }

    // The journal begins: its half holds the directory, and has no entry.
    ensures journal { OnOk result (TellsFlash B.means board.old
        → IsJournal (B.means.device board.old).blocks
        (first_root (B.means.device board.old).blocks) first_directory
        (first_pages (B.means.device board.old).blocks) (B.means.flash board.new)) }

    // From `Ok` on each image holds the directory of a format.
    ensures holds { OnOk result (TellsFlash B.means board.old
        → (image : ℕ → List ℕ) → B.means.images board.new (B.means.moment board.new) image
        → directory_of (B.means.device board.old).blocks image ≡ Some first_directory) }
    // So does each that a later stop leaves, as long as the flash stays.
    ensures later { OnOk result (TellsFlash B.means board.old → (image : ℕ → List ℕ)
        → IsImage (B.means.device board.old).blocks (B.means.flash board.new) image
        → directory_of (B.means.device board.old).blocks image ≡ Some first_directory) }

    ensures touches { Touches B.means format_pages 12 5 8 board.old board.new }
    ensures no_fault { OnOk result
        ((B.means.counts board.new).flash_faults ≡ (B.means.counts board.old).flash_faults) }
    ensures cause { OnErr result
        (Rose (B.means.counts board.old).flash_faults (B.means.counts board.new).flash_faults) }
{
    let blocks = board.blocks();
    let mut text = [0; LONGEST];
    let length = write_first_checkpoint(blocks, &mut text) as usize;
    begin_half(board, Area { first: 3 }, &text[..length])?;
    let root = Root {
        generation: 0,
        blocks,
        version: VERSION,
    };
    plant(board, root)?;
    Ok(())
}
