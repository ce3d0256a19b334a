// The pool of a device whose stores are opened.
ghost use Rattle.std.specs.Prelude.{◌≡◌, ◌≤◌, ℕ, length, false, true, IfOk, IfSome, IfNone};
ghost use Rattle.block_pool.specs.Blocks.{blocks_of, is_free, new_pool};
ghost use Rattle.store_load.specs.Claims.{may_share};
ghost use Rattle.vault.specs.Memory.{is_unlinked};

use crate::loading::RULE;
use block_pool::Pool;
use std::alloc::{AllocError, Global};
use store_directory::Directory;
use store_load::claim;

/// The pool of a device whose blocks have these erase counts. All data blocks are free, and none is
/// ready.
pub(crate) fn pool_of(alloc: Global, wear: &[u32]) -> Result<Pool, AllocError>
    requires least { 16 ≤ length wear.now }
    requires most { length wear.now ≤ 512 }
    ensures free { IfOk result (λ pool. pool.free ≡ (new_pool (length wear.now)).free) }
    ensures ready { IfOk result (λ pool. pool.ready ≡ (new_pool (length wear.now)).ready) }
    ensures wear { IfOk result (λ pool. pool.wear ≡ wear.now) }
{
    let mut pool = Pool::new(alloc, wear.len() as u32)?;
    for block in 0..wear.len() {
        pool.set_wear(block as u32, wear[block]);
    }
    Ok(pool)
}

/// The same pool without the blocks of a directory's stores; None if they may not share the device.
pub(crate) fn claimed(directory: &Directory, mut pool: Pool) -> Option<Pool>
    requires free { pool.free ≡ (new_pool (blocks_of pool)).free }
    ensures free { IfSome result (λ left. (block : ℕ) → is_free left block
        ≡ is_unlinked (blocks_of pool) directory.now.stores block) }
    ensures ready { IfSome result (λ left. left.ready ≡ pool.ready) }
    ensures wear { IfSome result (λ left. left.wear ≡ pool.wear) }
    ensures share { IfSome result
        (λ left. may_share 240 (blocks_of pool) directory.now.stores ≡ true) }
    ensures refused { IfNone result
        (may_share 240 (blocks_of pool) directory.now.stores ≡ false) }
{
    if claim(directory, &mut pool, RULE) {
        Some(pool)
    } else {
        None
    }
}
