// The pool of data blocks.
ghost use Rattle.std.specs.Prelude.{◌≡◌, ◌<◌, ◌≤◌, ◌+◌, ◌-◌, ◌^◌, false, true, get_or, if◌then◌else◌, length, min, set, IfOk, IsTrue, IsFalse};
ghost use Rattle.block_pool.specs.Blocks.{Blocks, IsData, IsLeastWorn, IsPool, blocks_of, free_count, is_free, is_ready, new_pool, wear_of};

use crate::least::least_worn;
use std::alloc::{AllocError, Global};
use std::marker::Model;

/// The first data block.
const FIRST: usize = 7;

/// Which data blocks are free, which are ready, and how often each block was erased, as far as
/// 4,294,967,295 times. A block is ready if it was erased while it was free, and was not given back
/// since: what is written in a block once it is taken, a pool does not see. A device has 16 to 512
/// blocks, of which 7 and those above are data blocks.
#[derive(Drop)]
pub struct Pool {
    free: Vec<bool>,
    ready: Vec<bool>,
    wear: Vec<u32>,
}

impl Model for Pool {
    ghost use Rattle.block_pool.specs.Blocks.{Blocks, IsPool};

    ghost Value = { Blocks };

    ghost view = { λ pool.
        record { free = pool.free.items; ready = pool.ready.items; wear = pool.wear.items } };

    ghost invariant = { λ pool. IsPool
        (record { free = pool.free.items; ready = pool.ready.items; wear = pool.wear.items }) };
}

impl Pool {
    /// The pool of a device of this many blocks, 16 to 512. All data blocks are free, none is
    /// ready, and no block was erased.
    pub fn new(alloc: Global, blocks: u32) -> Result<Pool, AllocError>
        requires few { 16 ≤ blocks }
        requires many { blocks ≤ 512 }
        ensures { IfOk result (λ pool. pool ≡ new_pool blocks) }
    {
        let count = blocks as usize;
        let mut free = Vec::new(alloc);
        free.resize(FIRST, false)?;
        free.resize(count, true)?;
        let ready = vec![in alloc; false; count]?;
        let wear = vec![in alloc; 0; count]?;
        Ok(Pool { free, ready, wear })
    }

    /// How many blocks are free.
    pub fn free(&self) -> u32
        ensures count { result ≡ free_count self.now }
        ensures lawful { IsPool self.now }
    {
        self.free.iter().filter(|free| **free).count() as u32
    }

    /// Whether the block is a data block that is free.
    pub fn is_free(&self, block: u32) -> bool
        ensures free { result ≡ is_free self.now block }
        ensures block { IsTrue result → IsData self.now block }
    {
        (block as usize) < self.free.len() && self.free[block as usize]
    }

    /// Whether the block is a data block that is ready.
    pub fn is_ready(&self, block: u32) -> bool
        ensures ready { result ≡ is_ready self.now block }
        ensures block { IsTrue result → IsData self.now block }
    {
        (block as usize) < self.ready.len() && self.ready[block as usize]
    }

    /// How often each block was erased, in the order of the blocks.
    pub fn wear(&self) -> &[u32]
        ensures counts { result.now ≡ self.now.wear }
        ensures lawful { IsPool self.now }
    {
        &self.wear
    }

    /// Takes a free block: of those with the least erase count the one with the lowest number. Some
    /// block is free.
    pub fn take(&mut self) -> u32
        requires { 0 < free_count self.old }
        ensures least { IsLeastWorn self.old result }
        ensures free { self.new.free ≡ set self.old.free result false }
        ensures ready { self.new.ready ≡ self.old.ready }
        ensures wear { self.new.wear ≡ self.old.wear }
    {
        let block = least_worn(&self.free, &self.wear);
        self.mark(block);
        block
    }

    /// From now on the block, which is free, is not free.
    pub fn mark(&mut self, block: u32)
        requires { is_free self.old block ≡ true }
        ensures free { self.new.free ≡ set self.old.free block false }
        ensures ready { self.new.ready ≡ self.old.ready }
        ensures wear { self.new.wear ≡ self.old.wear }
    {
        self.free[block as usize] = false;
    }

    /// Gives back a data block that is not free: from now on it is free, and not ready.
    pub fn give(&mut self, block: u32)
        requires block { IsData self.old block }
        requires taken { is_free self.old block ≡ false }
        ensures free { self.new.free ≡ set self.old.free block true }
        ensures ready { self.new.ready ≡ set self.old.ready block false }
        ensures wear { self.new.wear ≡ self.old.wear }
    {
        self.free[block as usize] = true;
        self.ready[block as usize] = false;
    }

    /// Counts an erase of the block, which is below the number of blocks. If it is free, it is
    /// ready from now on.
    pub fn erased(&mut self, block: u32)
        requires { block < blocks_of self.old }
        ensures free { self.new.free ≡ self.old.free }
        ensures ready { self.new.ready ≡ (if is_free self.old block
            then set self.old.ready block true else self.old.ready) }
        ensures wear { self.new.wear
            ≡ set self.old.wear block (min (wear_of self.old block + 1) (2 ^ 32 - 1)) }
    {
        let at = block as usize;
        self.wear[at] = self.wear[at].saturating_add(1);
        if self.free[at] {
            self.ready[at] = true;
        }
    }

    /// Sets how often the block, which is below the number of blocks, was erased.
    pub fn set_wear(&mut self, block: u32, count: u32)
        requires { block < blocks_of self.old }
        ensures free { self.new.free ≡ self.old.free }
        ensures ready { self.new.ready ≡ self.old.ready }
        ensures wear { self.new.wear ≡ set self.old.wear block count }
    {
        self.wear[block as usize] = count;
    }
}
