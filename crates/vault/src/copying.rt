// A store's last block, copied to a free one.
ghost use Rattle.std.specs.Prelude.{◌≡◌, ◌<◌, ◌≤◌, ℕ, List, Some, length, map, true, All, IfErr, IfOk};
ghost use Rattle.block_pool.specs.Blocks.{blocks_of, free_count, is_free};
ghost use Rattle.board.specs.Counts.{Rose};
ghost use Rattle.board.specs.Meaning.{TellsFlash};
ghost use Rattle.chain_log.specs.Copies.{OnMismatch};
ghost use Rattle.chain_log.specs.Loaded.{OnFlash, UnlessFlash};
ghost use Rattle.chain_log.specs.Pages.{IsCleanFrom};
ghost use Rattle.image_table.specs.Table.{table_rule};
ghost use Rattle.record_view.specs.Records.{Meaning};
ghost use Rattle.store_directory.specs.Directory.{is_new};
ghost use Rattle.store_load.specs.Claims.{block_of};
ghost use Rattle.store_load.specs.InRange.{IsInRange};
ghost use Rattle.store_load.specs.Keeping.{IsInDevice, Keeps};
ghost use Rattle.store_load.specs.Loaded.{index_of};
ghost use Rattle.store_load.specs.Moving.{SpellsLast};
ghost use Rattle.store_write.specs.Renewed.{renewed_index, renewed_link};
ghost use Rattle.vault.specs.Renewing.{CopiesInto, Differs, IsLastCopy, IsTakenFrom, last_block};

use block_pool::Pool;
use board::Board;
use chain_log::LoadFault;
use record_view::Link;
use store_directory::Row;
use store_put::take_block;
use store_write::{first_in_last, renew_block};
use time_index::Index;

/// A copy of a store's last block.
#[derive(Clone, Copy)]
pub(crate) struct LastCopy {
    // the block that was copied
    pub(crate) old: u32,
    // the block of the copies, and the number of the first of them
    pub(crate) block: u32,
    pub(crate) first: u32,
    // how many of its pages they use
    pub(crate) used: u32,
}

// The block of the last link; 0 if there is none.
fn last_block(links: &[Link]) -> u32
    ensures { result ≡ last_block links.now }
{
    match links.last() {
        Some(link) => u32::from(link.block),
        None => 0,
    }
}

/// Copies the live records of a store's last block to a free block, which is taken and erased, and
/// puts their new places into the store's index. No free block is one of the store's. There is no
/// barrier behind the copies: until one, a power loss may leave anything in the block.
pub(crate) fn copy_last<B: Board>(
    board: &mut B,
    row: &Row,
    links: &[Link],
    index: &mut Index,
    pool: &mut Pool,
    buffer: &mut [u8],
) -> Result<LastCopy, LoadFault>
    requires some { 0 < free_count pool.old }
    requires blocks { blocks_of pool.old ≡ (B.means.device board.old).blocks }
    requires in_range { (now : ℕ) × (used : ℕ)
        × IsInRange table_rule now row.now links.now index.old used }
    requires linked { 1 ≤ length links.now }
    requires own { All (IsInDevice (B.means.device board.old).blocks) links.now }
    requires apart { (block : ℕ) → is_free pool.old block ≡ true
        → is_new block (map block_of links.now) ≡ true }
    requires room { 8704 ≤ length buffer.old }

    ensures copy { IfOk result (IsLastCopy row.now links.now index.old) }
    ensures taken { IfOk result (λ copy. IsTakenFrom pool.old pool.new copy.block) }
    ensures index { IfOk result
        (λ copy. index.new ≡ renewed_index row.now links.now copy.block index.old) }
    ensures spelled { IfOk result (λ copy. TellsFlash B.means board.old → (now : ℕ)
        (records : List Meaning)
        → Keeps table_rule (B.means.device board.old).blocks (B.means.flash board.old).content now
        row.now links.now records
        → index_of table_rule (B.means.flash board.old).content now row.now links.now
        ≡ Some index.old
        → SpellsLast (B.means.flash board.new).content row.now links.now
        (renewed_link row.now links.now copy.block)) }
    ensures agrees { TellsFlash B.means board.old → (now : ℕ) (records : List Meaning)
        → Keeps table_rule (B.means.device board.old).blocks (B.means.flash board.old).content now
        row.now links.now records
        → index_of table_rule (B.means.flash board.old).content now row.now links.now
        ≡ Some index.old → OnMismatch result ⊥ }
    ensures clean { IfOk result (λ copy. TellsFlash B.means board.old
        → IsCleanFrom (B.means.flash board.new) copy.block copy.used) }
    ensures differs { IfErr result Differs }
    ensures copies { CopiesInto B.means pool.old board.old board.new result }
    ensures no_fault { UnlessFlash result
        ((B.means.counts board.new).flash_faults ≡ (B.means.counts board.old).flash_faults) }
    ensures cause { OnFlash result
        (Rose (B.means.counts board.old).flash_faults (B.means.counts board.new).flash_faults) }
{
    let (block, _) = take_block(pool);
    let used = renew_block(board, row, links, index, block, buffer)?;
    pool.erased(block);
    Ok(LastCopy {
        old: last_block(links),
        block,
        first: first_in_last(row, links),
        used,
    })
}
