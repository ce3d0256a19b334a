// A store's last block that is renewed.
//
// The records of the block that are still the store's are copied to a fresh one, from page 0 on,
// under their numbers. The old block stays as it is: the directory names it until the caller has
// made the new link durable.
ghost use Rattle.std.specs.Prelude.{◌≡◌, ◌<◌, ◌≤◌, ◌+◌, ℕ, List, length, map, true, All, Some, IfOk, IfErr, OnOk};
ghost use Rattle.board.specs.Counts.{Rose};
ghost use Rattle.board.specs.Flash.{pages_of_block};
ghost use Rattle.board.specs.Meaning.{TellsFlash};
ghost use Rattle.chain_log.specs.Copies.{OnMismatch};
ghost use Rattle.chain_log.specs.Loaded.{OnFlash, UnlessFlash};
ghost use Rattle.chain_log.specs.Pages.{IsCleanFrom, IsDataBlock};
ghost use Rattle.record_view.specs.Records.{Meaning};
ghost use Rattle.store_directory.specs.Directory.{is_new};
ghost use Rattle.store_load.specs.Claims.{block_of};
ghost use Rattle.store_load.specs.Keeping.{Keeps};
ghost use Rattle.store_load.specs.Loaded.{index_of};
ghost use Rattle.store_load.specs.Moving.{SpellsLast};
ghost use Rattle.store_load.specs.declared.rule.Rule.{Rule};
ghost use Rattle.time_index.specs.TimeIndex.{pages_of};
ghost use Rattle.store_write.specs.Moved.{IsElsewhere, IsInPlace, IsMismatchIn, IsPartlyRenewed};
ghost use Rattle.store_load.specs.Renewing.{last_position};
ghost use Rattle.store_write.specs.Renewed.{first_in_last, last_entries, renewed_index, renewed_link};
ghost use Rattle.board.specs.Touches.{ReadsAndTouches};

use crate::copying::copy_entries;
use board::{Board, Failed};
use chain_log::{LoadFault, Tail};
use record_view::Link;
use store_directory::Row;
use time_index::Index;

/// The number of the first record of a store's last block that is still the store's. An only block
/// may have records in front of it that are no longer the store's.
pub fn first_in_last(row: &Row, links: &[Link]) -> u32
    ensures { result ≡ first_in_last row.now links.now }
{
    match links.last() {
        Some(link) if links.len() > 1 => link.first,
        _ => row.first,
    }
}

/// Copies the records of a store's last block to a fresh one, which is erased first, and puts their
/// new places into the store's index. Returns how many pages of the fresh block they use, at most
/// 256. `buf` has at least 8,704 octets. There is no barrier behind the copies: until one, a power
/// loss may leave anything in the fresh block.
///
/// `Flash`: a call of the board failed. `Mismatch`: what is found at a place is not the record that
/// was kept. The index then names some of the copies.
pub fn renew_block<B: Board>(
    board: &mut B,
    row: &Row,
    links: &[Link],
    index: &mut Index,
    fresh: u32,
    buf: &mut [u8],
) -> Result<u32, LoadFault>
    requires fresh { IsDataBlock (B.means.device board.old).blocks fresh }
    requires places { All (IsInPlace (B.means.device board.old).blocks)
        (last_entries row.now links.now index.old) }
    requires linked { 1 ≤ length links.now }
    requires new { is_new fresh (map block_of links.now) ≡ true }
    requires apart { All (IsElsewhere fresh) (last_entries row.now links.now index.old) }
    requires fits { pages_of (last_entries row.now links.now index.old) ≤ 256 }
    requires room { 8704 ≤ length buf.old }

    ensures used { IfOk result (λ used.
        used ≡ pages_of (last_entries row.now links.now index.old)) }
    ensures index { OnOk result (index.new ≡ renewed_index row.now links.now fresh index.old) }
    ensures partly { IsPartlyRenewed (last_position row.now links.now) fresh index.old index.new }

    // If the flash is told, and the store keeps the records of the index there: the fresh block
    // spells those of the last one, and nothing differs.
    ensures spelled { OnOk result (TellsFlash B.means board.old → (rule : Rule) (now : ℕ)
        (records : List Meaning)
        → Keeps rule (B.means.device board.old).blocks (B.means.flash board.old).content now row.now
        links.now records
        → index_of rule (B.means.flash board.old).content now row.now links.now ≡ Some index.old
        → SpellsLast (B.means.flash board.new).content row.now links.now
        (renewed_link row.now links.now fresh)) }
    ensures agrees { TellsFlash B.means board.old → (rule : Rule) (now : ℕ)
        (records : List Meaning)
        → Keeps rule (B.means.device board.old).blocks (B.means.flash board.old).content now row.now
        links.now records
        → index_of rule (B.means.flash board.old).content now row.now links.now ≡ Some index.old
        → OnMismatch result ⊥ }
    ensures clean { IfOk result (λ used. TellsFlash B.means board.old
        → IsCleanFrom (B.means.flash board.new) fresh used) }
    ensures mismatch { IfErr result (IsMismatchIn (last_entries row.now links.now index.old)) }
    ensures rewrites { ReadsAndTouches B.means (pages_of_block fresh)
        (pages_of (last_entries row.now links.now index.old))
        (pages_of (last_entries row.now links.now index.old)) 1 1 board.old board.new }
    ensures no_fault { UnlessFlash result
        ((B.means.counts board.new).flash_faults ≡ (B.means.counts board.old).flash_faults) }
    ensures cause { OnFlash result
        (Rose (B.means.counts board.old).flash_faults (B.means.counts board.new).flash_faults) }
{
    let Ok(mut tail) = Tail::begin(board, fresh) else {
        return Err(LoadFault::Flash);
    };
    let from = first_in_last(row, links).wrapping_sub(row.first);
    copy_entries(board, from, index, &mut tail, buf)?;
    Ok(tail.used())
}
