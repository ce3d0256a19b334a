// Laws on how many blocks are free.
ghost use Rattle.std.specs.Prelude.{◌≡◌, ◌≤◌, ◌+◌, ℕ, List, length, true};
ghost use Rattle.block_pool.specs.Blocks.{Blocks, IsPool, blocks_of, free_count, is_free};
ghost use Rattle.store_directory.specs.Directory.{Listed};
ghost use Rattle.store_load.specs.Claims.{all_links};
ghost use Rattle.store_put.specs.Pools.{IsTaken, is_unlinked};

/// If each data block is free that no store names, as many blocks are free as there are, but for
/// seven and those of the stores. A block that is taken is one fewer.
pub fn free_blocks_are_counted()
    ensures least { (pool : Blocks) (stores : List Listed) → IsPool pool
        → ((block : ℕ) → is_unlinked (blocks_of pool) stores block ≡ true
        → is_free pool block ≡ true)
        → blocks_of pool ≤ free_count pool + 7 + length (all_links stores) }
    ensures fewer { (old new : Blocks) (block : ℕ) → IsPool old → IsTaken old new block
        → free_count old ≡ free_count new + 1 }
{}
