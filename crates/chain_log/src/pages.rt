// Pages of a block that are programmed or read one after another.
ghost use Rattle.std.specs.Prelude.{◌≡◌, ◌<◌, ◌≤◌, ◌+◌, ◌*◌, length, drop, take, OnOk, OnErr};
ghost use Rattle.board.specs.Counts.{Rose, RoseBy};
ghost use Rattle.board.specs.Flash.{pages_from};
ghost use Rattle.board.specs.Meaning.{TellsFlash};
ghost use Rattle.board.specs.Reads.{ReadsOnly};
ghost use Rattle.board.specs.Touches.{SameElsewhere, Touches};
ghost use Rattle.commit_gate.specs.Entries.{octets_from};
ghost use Rattle.chain_log.specs.Pages.{IsCleanFrom, with_pages};

use board::{Board, Failed};

/// Programs octets into `pages` clean pages of a block from the page `first` on, in ascending
/// order. Until a barrier, a stop may leave anything in them. `Failed`: a program failed; no other
/// page changed.
pub(crate) fn write_pages<B: Board>(
    board: &mut B,
    block: u32,
    first: u32,
    pages: u32,
    octets: &[u8],
) -> Result<(), Failed>
    requires block { block < (B.means.device board.old).blocks }
    requires within { first + pages ≤ 256 }
    requires room { 256 * pages ≤ length octets.now }
    requires clean { TellsFlash B.means board.old
        → IsCleanFrom (B.means.flash board.old) block first }

    ensures ok { OnOk result (TellsFlash B.means board.old → B.means.flash board.new
        ≡ with_pages (256 * block + first) pages octets.now (B.means.flash board.old)) }
    ensures others { TellsFlash B.means board.old
        → SameElsewhere (pages_from (256 * block + first) pages)
        (B.means.flash board.old) (B.means.flash board.new) }
    ensures seen { 1 ≤ pages → OnOk result (TellsFlash B.means board.old
        → B.means.images board.new (B.means.moment board.new) (B.means.flash board.new).content) }
    ensures touches { Touches B.means (pages_from (256 * block + first) pages) pages 0 0
        board.old board.new }
    ensures programs { OnOk result (RoseBy pages
        (B.means.counts board.old).programs (B.means.counts board.new).programs) }
    ensures no_fault { OnOk result
        ((B.means.counts board.new).flash_faults ≡ (B.means.counts board.old).flash_faults) }
    ensures cause { OnErr result
        (Rose (B.means.counts board.old).flash_faults (B.means.counts board.new).flash_faults) }
{
    for i in 0..pages {
        let start = 256 * i as usize;
        board.program(block, first + i, &octets[start..start + 256])?;
    }
    Ok(())
}

/// Reads `pages` pages of a block from the page `first` on into the front of `buf`, each page once.
/// After `Failed`, that front holds any octets.
pub(crate) fn read_pages<B: Board>(
    board: &mut B,
    block: u32,
    first: u32,
    pages: u32,
    buf: &mut [u8],
) -> Result<(), Failed>
    requires block { block < (B.means.device board.old).blocks }
    requires within { first + pages ≤ 256 }
    requires room { 256 * pages ≤ length buf.old }

    ensures read { OnOk result (TellsFlash B.means board.old → take (256 * pages) buf.new
        ≡ octets_from (B.means.flash board.old).content (256 * block + first) pages) }
    ensures reads { ReadsOnly B.means pages board.old board.new }
    ensures counted { OnOk result
        (RoseBy pages (B.means.counts board.old).reads (B.means.counts board.new).reads) }
    ensures no_fault { OnOk result
        ((B.means.counts board.new).flash_faults ≡ (B.means.counts board.old).flash_faults) }
    ensures cause { OnErr result
        (Rose (B.means.counts board.old).flash_faults (B.means.counts board.new).flash_faults) }
{
    for i in 0..pages {
        let start = 256 * i as usize;
        board.read_page(block, first + i, &mut buf[start..start + 256])?;
    }
    Ok(())
}
