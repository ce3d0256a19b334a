// The halves of a journal: half 0 is the blocks 3 and 4, half 1 the blocks 5 and 6.
ghost use Rattle.std.specs.Prelude.{◌≡◌, ◌⊎◌, ◌≤◌, ◌*◌, length, OnOk, OnErr};
ghost use Rattle.board.specs.Counts.{Rose};
ghost use Rattle.board.specs.Meaning.{TellsFlash};
ghost use Rattle.board.specs.Touches.{Touches};
ghost use Rattle.commit_gate.specs.Entries.{payload_pages};
ghost use Rattle.meta_journal.specs.Halves.{erased_half, half_block, half_of, half_pages};
ghost use Rattle.meta_journal.specs.Halves.{with_checkpoint};
ghost use Rattle.meta_journal.specs.Journals.{next_of};

use board::{Board, Failed};
use commit_gate::{Area, write_text};
use root_vote::Root;

/// The half that a root names.
pub fn half_of(root: Root) -> Area
    ensures { result.first ≡ half_block (half_of root) }
{
    Area {
        first: 3 + 2 * (root.generation % 2) as u32,
    }
}

/// The root behind this one, which names the other half. The generation behind the greatest is 0.
pub fn next_root(root: Root) -> Root
    ensures { result ≡ next_of root }
{
    Root {
        generation: root.generation.wrapping_add(1),
        blocks: root.blocks,
        version: root.version,
    }
}

// Erases both blocks of a half, so that its pages are clean.
fn erase_half<B: Board>(board: &mut B, area: Area) -> Result<(), Failed>
    requires first { (area.first ≡ 3) ⊎ (area.first ≡ 5) }

    ensures flash { OnOk result (TellsFlash B.means board.old
        → B.means.flash board.new ≡ erased_half area.first (B.means.flash board.old)) }
    ensures seen { OnOk result (TellsFlash B.means board.old → B.means.images
        board.new (B.means.moment board.new) (B.means.flash board.new).content) }
    ensures touches { Touches B.means (half_pages (256 * area.first)) 0 2 1 board.old board.new }
    ensures no_fault { OnOk result
        ((B.means.counts board.new).flash_faults ≡ (B.means.counts board.old).flash_faults) }
    ensures cause { OnErr result
        (Rose (B.means.counts board.old).flash_faults (B.means.counts board.new).flash_faults) }
{
    board.erase(area.first)?;
    board.erase(area.first + 1)?;
    board.barrier()
}

/// Erases a half, whatever it holds, and writes a checkpoint of at most 20,476 octets at its front.
/// `Failed`: a call of the board failed; the pages of the half may hold any octets.
pub fn begin_half<B: Board>(board: &mut B, area: Area, checkpoint: &[u8]) -> Result<(), Failed>
    requires first { (area.first ≡ 3) ⊎ (area.first ≡ 5) }
    requires longest { length checkpoint.now ≤ 20476 }

    ensures flash { OnOk result (TellsFlash B.means board.old → B.means.flash board.new
        ≡ with_checkpoint area.first checkpoint.now (B.means.flash board.old)) }
    ensures seen { OnOk result (TellsFlash B.means board.old → B.means.images
        board.new (B.means.moment board.new) (B.means.flash board.new).content) }
    ensures touches { Touches B.means (half_pages (256 * area.first))
        (payload_pages (length checkpoint.now)) 2 2 board.old board.new }
    ensures no_fault { OnOk result
        ((B.means.counts board.new).flash_faults ≡ (B.means.counts board.old).flash_faults) }
    ensures cause { OnErr result
        (Rose (B.means.counts board.old).flash_faults (B.means.counts board.new).flash_faults) }
{
    erase_half(board, area)?;
    write_text(board, area, 0, checkpoint)?;
    board.barrier()?;
    Ok(())
}
