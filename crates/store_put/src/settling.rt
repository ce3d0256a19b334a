// The blocks that no store names any more are free again.
ghost use Rattle.std.specs.Prelude.{◌≡◌, ◌<◌, ◌||◌, not, ℕ, false, true, All, length, set, slice_index_or};
ghost use Rattle.block_pool.specs.Blocks.{IsData, blocks_of, is_free, is_ready};
ghost use Rattle.store_load.specs.Claims.{all_links};
ghost use Rattle.store_put.specs.Pools.{IsBelow, is_named, is_unlinked};

use block_pool::Pool;
use record_view::Link;
use store_directory::Directory;

/// The first data block, and the most blocks of a device.
const FIRST: u32 = 7;

const MOST: usize = 512;

// Marks the blocks that links name.
fn mark_links(links: &[Link], named: &mut [bool])
    requires within { All (IsBelow (length named.old)) links.now }
    ensures { (block : ℕ) → block < length named.old → slice_index_or named.new block true
        ≡ (slice_index_or named.old block true || is_named block links.now) }
{
    for link in links {
        named[usize::from(link.block)] = true;
    }
}

// Which blocks the links of stores name.
fn named_blocks(directory: &Directory) -> [bool; 512]
    requires { All (IsBelow 512) (all_links directory.now.stores) }
    ensures { (block : ℕ) → block < 512 → slice_index_or result block true
        ≡ is_named block (all_links directory.now.stores) }
{
    let mut named = [false; MOST];
    for at in 0..directory.len() {
        mark_links(directory.links(at), &mut named);
    }
    named
}

// Gives a data block back if it is not free and no store names it. A free block is not named.
fn free_unnamed(pool: &mut Pool, block: u32, is_named: bool)
    requires own { IsData pool.old block }
    requires unnamed { is_free pool.old block ≡ true → is_named ≡ false }
    ensures free { pool.new.free ≡ set pool.old.free block (not is_named) }
    ensures ready { (other : ℕ) → is_ready pool.new other ≡ true → is_ready pool.old other ≡ true }
    ensures given { (other : ℕ) → is_free pool.new other ≡ true → is_ready pool.new other ≡ true
        → is_free pool.old other ≡ true }
    ensures still_ready { (other : ℕ) → is_free pool.old other ≡ true
        → is_ready pool.new other ≡ is_ready pool.old other }
    ensures wear { pool.new.wear ≡ pool.old.wear }
{
    let is_free = pool.is_free(block);
    if !is_named && !is_free {
        pool.give(block);
    }
}

/// Gives back each data block that is not free and that no store names. Before, no free block is
/// named by a store; behind it a block is free exactly if it is a data block that no store names, and
/// one that was free before is as ready as it was.
/// The device has as many blocks as the pool, and each block of a store is one of them.
pub fn settle(directory: &Directory, pool: &mut Pool)
    requires within { All (IsBelow (blocks_of pool.old)) (all_links directory.now.stores) }
    requires unlinked { (block : ℕ) → is_free pool.old block ≡ true
        → is_unlinked (blocks_of pool.old) directory.now.stores block ≡ true }
    ensures free { (block : ℕ) → is_free pool.new block
        ≡ is_unlinked (blocks_of pool.old) directory.now.stores block }
    ensures ready { (block : ℕ) → is_ready pool.new block ≡ true → is_ready pool.old block ≡ true }
    // a block that is given back is not ready
    ensures given { (block : ℕ) → is_free pool.new block ≡ true → is_ready pool.new block ≡ true
        → is_free pool.old block ≡ true }
    ensures still_ready { (block : ℕ) → is_free pool.old block ≡ true
        → is_ready pool.new block ≡ is_ready pool.old block }
    ensures wear { pool.new.wear ≡ pool.old.wear }
{
    let blocks = pool.wear().len() as u32;
    let named = named_blocks(directory);
    for block in FIRST..blocks {
        free_unnamed(pool, block, named[block as usize]);
    }
}
