// Whether the stores of a directory may share a device, and the blocks that they have of it.
ghost use Rattle.std.specs.Prelude.{◌≡◌, ◌+◌, ◌/◌, ◌<◌, ◌≤◌, ◌&&◌, nat_le, None, Some, length, IfSome, IsFalse, IsTrue, slice_get};
ghost use Rattle.std.specs.List.{All, list_all};
ghost use Rattle.block_pool.specs.Blocks.{blocks_of};
ghost use Rattle.store_directory.specs.Directory.{IsListed};
ghost use Rattle.store_load.specs.Claims.{all_links, blocks_at, is_within, may_share, reserved_at};
ghost use Rattle.store_load.specs.Taking.{AllAreFree, AreTaken, take_each};

use crate::rule::Rule;
use block_pool::Pool;
use record_view::Link;
use store_directory::Directory;

/// The blocks that a store reserves beside those that its size fills.
const SPARE_BLOCKS: u32 = 3;

/// The blocks of a device that no store may reserve: the seven of roots and journal, and one that is
/// always free.
const KEPT_BLOCKS: usize = 8;

// The blocks that a store of this size, at most 100,000 pages, reserves.
fn blocks_at(size: u32, least: u32) -> u32
    requires least { 1 ≤ least }
    requires size { size ≤ 100000 }
    ensures blocks { result ≡ blocks_at least size }
    ensures most { result ≤ 100003 }
{
    size / least + SPARE_BLOCKS
}

// The blocks that the store at a place reserves.
fn blocks_of_store(directory: &Directory, at: u32, least: u32) -> u32
    requires least { 1 ≤ least }
    requires within { at < length directory.now.stores }
    requires kept { All IsListed directory.now.stores }
    ensures blocks { IfSome (slice_get directory.now.stores at) (λ s. result ≡ blocks_at least s.size) }
    ensures most { result ≤ 100003 }
{
    blocks_at(directory.row(at).size, least)
}

// The blocks that all stores reserve.
fn reserved_at(directory: &Directory, least: u32) -> u32
    requires { 1 ≤ least }
    ensures sum { result ≡ reserved_at least directory.now.stores }
{
    let mut sum = 0;
    for at in 0..directory.len() {
        sum += blocks_of_store(directory, at, least);
    }
    sum
}

// Whether no store has more blocks than it reserves.
fn are_within(directory: &Directory, least: u32) -> bool
    requires { 1 ≤ least }
    ensures { result ≡ list_all (is_within least) directory.now.stores }
{
    for at in 0..directory.len() {
        if directory.links(at).len() > blocks_of_store(directory, at, least) as usize {
            return false;
        }
    }
    true
}

// Whether the stores may reserve their blocks of a device, and have no more than those.
fn may_reserve(directory: &Directory, blocks: usize, least: u32) -> bool
    requires { 1 ≤ least }
    ensures { result ≡ (nat_le (reserved_at least directory.now.stores + 8) blocks
        && list_all (is_within least) directory.now.stores) }
{
    reserved_at(directory, least) as usize + KEPT_BLOCKS <= blocks && are_within(directory, least)
}

// Takes the blocks of links, until one is not free.
fn take_links(links: &[Link], pool: &mut Pool) -> bool
    ensures taken { IsTrue result → (take_each pool.old.free links.now ≡ Some pool.new.free) }
    ensures refused { IsFalse result → (take_each pool.old.free links.now ≡ None) }
    ensures ready { pool.new.ready ≡ pool.old.ready }
    ensures wear { pool.new.wear ≡ pool.old.wear }
{
    for link in links {
        let block = u32::from(link.block);
        if !pool.is_free(block) {
            return false;
        }
        pool.mark(block);
    }
    true
}

// Takes the blocks of all stores, until one is not free.
fn take_all(directory: &Directory, pool: &mut Pool) -> bool
    ensures taken { IsTrue result
        → (take_each pool.old.free (all_links directory.now.stores) ≡ Some pool.new.free) }
    ensures refused { IsFalse result
        → (take_each pool.old.free (all_links directory.now.stores) ≡ None) }
    ensures ready { pool.new.ready ≡ pool.old.ready }
    ensures wear { pool.new.wear ≡ pool.old.wear }
{
    for at in 0..directory.len() {
        if !take_links(directory.links(at), pool) {
            return false;
        }
    }
    true
}

/// Takes the blocks of a directory's stores out of a pool whose data blocks are all free. Returns
/// whether the stores may share the device: what they reserve leaves eight of its blocks, no store
/// has more blocks than it reserves, and all links name different data blocks. If they may not, some
/// of the blocks may have been taken, and the pool is of no further use.
pub fn claim(directory: &Directory, pool: &mut Pool, rule: Rule) -> bool
    requires free { AllAreFree pool.old }
    requires least { 1 ≤ rule.least }
    requires most { rule.least ≤ 256 }
    ensures answer { result ≡ may_share rule.least (blocks_of pool.old) directory.now.stores }
    ensures taken { IsTrue result → AreTaken (all_links directory.now.stores) pool.old pool.new }
    ensures ready { pool.new.ready ≡ pool.old.ready }
    ensures wear { pool.new.wear ≡ pool.old.wear }
{
    may_reserve(directory, pool.wear().len(), rule.least) && take_all(directory, pool)
}
