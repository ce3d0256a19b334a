// The table of a device, as it lies in memory and in the flash.
//
// Memory keeps the directory of the packet stores, of each store the index of its records, which
// blocks are free, and where the journal ends. The packets lie in the flash alone.
ghost use Rattle.std.specs.Prelude.{◌≡◌, ◌<◌, ◌≤◌, length, slice_get, true, IfSome};
ghost use Rattle.vault.specs.Memory.{IsSound, IsViewOf};

use crate::held_record::HeldRecord;
use crate::last_block::LastBlock;
use block_pool::Pool;
use meta_journal::Journal;
use std::alloc::Global;
use std::marker::Model;
use store_directory::Directory;
use store_policy::View;
use time_index::Index;

/// The durable table of the packet stores (ECSS-E-ST-70-41C, 6.15) of a device. Each call on it but
/// `is_open` is made while it is open. It is closed after a call that answers `Flash` or `Mismatch`,
/// and then the device has to be opened again.
#[derive(Drop)]
pub struct Vault {
    pub(crate) directory: Directory,
    pub(crate) indexes: Vec<Index>,
    pub(crate) lasts: Vec<LastBlock>,
    pub(crate) pool: Pool,
    pub(crate) journal: Journal,
    pub(crate) blocks: u32,
    // of 65,536 octets: those of a block
    pub(crate) buffer: Vec<u8>,
    pub(crate) held: HeldRecord,
    pub(crate) alloc: Global,
    pub(crate) is_open: bool,
}

impl Model for Vault {
    ghost use Rattle.std.specs.Prelude.{◌≡◌, length, true};
    ghost use Rattle.vault.specs.Memory.{InMemory, IsSound};

    ghost Value = { InMemory };

    ghost view = { λ v. record {
      directory = v.directory;
      indexes = v.indexes.items;
      lasts = v.lasts.items;
      pool = v.pool;
      journal = v.journal;
      blocks = v.blocks;
      held = v.held;
      is_open = v.is_open;
    } };

    ghost invariant = { λ v. (length v.buffer.items ≡ 65536) × (v.is_open ≡ true → IsSound (record {
      directory = v.directory;
      indexes = v.indexes.items;
      lasts = v.lasts.items;
      pool = v.pool;
      journal = v.journal;
      blocks = v.blocks;
      held = v.held;
      is_open = v.is_open;
    })) };
}

impl Vault {
    /// Whether it is open.
    pub fn is_open(&self) -> bool
        ensures { result ≡ self.now.is_open }
    {
        self.is_open
    }

    /// What of the stores lies in memory.
    pub fn view(&self) -> View<'_>
        requires { self.now.is_open ≡ true }
        ensures view { IsViewOf result self.now }
        ensures sound { IsSound self.now }
    {
        View {
            directory: &self.directory,
            indexes: &self.indexes,
            blocks: self.blocks,
        }
    }

    /// How many pages at the end of the journal's half are known to be clean, at most 512. After an
    /// opening it is 0.
    pub fn journal_room(&self) -> u32
        requires { self.now.is_open ≡ true }
        ensures room { result ≡ self.now.journal.room }
        ensures most { result ≤ 512 }
    {
        self.journal.room()
    }

    /// How many arrivals are not committed yet: none, since each is committed at once.
    pub fn pending(&self) -> u32
        requires { self.now.is_open ≡ true }
        ensures { result ≡ 0 }
    {
        0
    }

    /// Whether the last block of the store at a place was written before this opening. Its other
    /// pages are then not known to be clean. After an opening, a store is stale exactly if it has a
    /// block.
    pub fn stale(&self, at: u32) -> bool
        requires is_open { self.now.is_open ≡ true }
        requires within { at < length self.now.directory.stores }
        ensures { IfSome (slice_get self.now.lasts at) (λ last. result ≡ last.stale) }
    {
        let lasts: &[LastBlock] = &self.lasts;
        lasts[at as usize].stale
    }
}
