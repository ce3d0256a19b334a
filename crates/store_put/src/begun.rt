// A free block is taken, and made ready for records.
ghost use Rattle.std.specs.Prelude.{◌≡◌, ◌<◌, ℕ, true, false, IfOk, OnOk, OnErr, set};
ghost use Rattle.block_pool.specs.Blocks.{blocks_of, free_count, is_free, is_ready};
ghost use Rattle.board.specs.Counts.{Rose};
ghost use Rattle.board.specs.Meaning.{TellsFlash};
ghost use Rattle.chain_log.specs.Pages.{IsCleanFrom};
ghost use Rattle.store_put.specs.Pools.{BeginsBlock, IsTaken};

use block_pool::Pool;
use board::{Board, Failed};
use chain_log::Tail;

/// Takes a free block, which is not ready from now on, and answers whether it was.
pub fn take_block(pool: &mut Pool) -> (u32, bool)
    requires { 0 < free_count pool.old }
    ensures taken { IsTaken pool.old pool.new result.0 }
    ensures wear { pool.new.wear ≡ pool.old.wear }
    ensures ready { result.1 ≡ is_ready pool.old result.0 }
{
    let block = pool.take();
    let ready = pool.is_ready(block);
    // a block that is given back is not ready any more
    pool.give(block);
    pool.mark(block);
    (block, ready)
}

/// Takes a free block, and erases it if it is not ready: a tail of it, all of whose pages are clean.
/// `Failed`: the erase or the barrier failed. No other page changes.
pub(crate) fn begin_block<B: Board>(board: &mut B, pool: &mut Pool) -> Result<Tail, Failed>
    requires some { 0 < free_count pool.old }
    requires blocks { blocks_of pool.old ≡ (B.means.device board.old).blocks }
    requires ready { TellsFlash B.means board.old → (block : ℕ)
        → is_free pool.old block ≡ true → is_ready pool.old block ≡ true
        → IsCleanFrom (B.means.flash board.old) block 0 }

    ensures begins { BeginsBlock B.means pool.old pool.new board.old board.new result }
    ensures clean { IfOk result (λ tail. TellsFlash B.means board.old
        → IsCleanFrom (B.means.flash board.new) tail.block 0) }
    ensures no_fault { OnOk result
        ((B.means.counts board.new).flash_faults ≡ (B.means.counts board.old).flash_faults) }
    ensures cause { OnErr result
        (Rose (B.means.counts board.old).flash_faults (B.means.counts board.new).flash_faults) }
{
    let (block, ready) = take_block(pool);
    if ready {
        return Ok(Tail::ready(block));
    }
    let tail = Tail::begin(board, block)?;
    pool.erased(block);
    Ok(tail)
}
