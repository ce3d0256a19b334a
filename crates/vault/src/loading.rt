// The stores of a directory, loaded from the flash as it is opened.
ghost use Rattle.std.specs.Prelude.{◌≡◌, ◌*◌, ◌<◌, ◌++◌, ◌∷◌, [], None, Some, true, length, slice_get, IfOk, IfSome};
ghost use Rattle.board.specs.Counts.{Rose};
ghost use Rattle.board.specs.Meaning.{TellsFlash};
ghost use Rattle.board.specs.Reads.{ReadsOnly};
ghost use Rattle.image_table.specs.Table.{store_of, table_rule};
ghost use Rattle.store_directory.specs.Directory.{IsDirectory};
ghost use Rattle.store_load.specs.Claims.{all_links, may_share};
ghost use Rattle.store_load.specs.Each.{each};
ghost use Rattle.vault.specs.Answers.{OnFlash, OnNotHeld, UnlessFlash};
ghost use Rattle.vault.specs.Loading.{GainsStore, IsLoadedStore, IsUnlawful, links_at};
ghost use Rattle.vault.specs.Memory.{EachStore, has_link};

use crate::fault::{OpenFault, fault_of_load};
use crate::last_block::LastBlock;
use board::Board;
use record_view::Link;
use std::alloc::{AllocError, Global};
use store_directory::Directory;
use store_load::{Loaded, Rule, load_store};
use time_index::Index;

/// What is asked of each store: every block but its last has at least 240 pages in use, and no
/// packet has more than 4,096 octets.
pub(crate) const RULE: Rule = Rule {
    least: 240,
    largest: 4096,
};

/// What is loaded of stores, one for each.
#[derive(Drop)]
pub(crate) struct Stores {
    pub(crate) indexes: Vec<Index>,
    pub(crate) lasts: Vec<LastBlock>,
}

impl Stores {
    // Of no store.
    fn new(alloc: Global) -> Stores
        ensures indexes { result.indexes.items ≡ [] }
        ensures lasts { result.lasts.items ≡ [] }
    {
        Stores {
            indexes: Vec::new(alloc),
            lasts: Vec::new(alloc),
        }
    }

    // One store more.
    fn push(&mut self, loaded: Loaded, stale: bool) -> Result<(), AllocError>
        ensures indexes { IfOk result
            (λ _. self.new.indexes.items ≡ self.old.indexes.items ++ loaded.index ∷ []) }
        ensures lasts { IfOk result (λ _. self.new.lasts.items ≡ self.old.lasts.items
            ++ (record { used = loaded.used; stale = stale }) ∷ []) }
    {
        self.indexes.push(loaded.index)?;
        self.lasts.push(LastBlock {
            used: loaded.used,
            stale,
        })?;
        Ok(())
    }
}

// Loads the store at a place.
fn load_at<B: Board>(
    alloc: Global,
    board: &mut B,
    directory: &Directory,
    at: u32,
    buf: &mut [u8],
) -> Result<Loaded, OpenFault>
    requires within { at < length directory.now.stores }
    requires kept { IsDirectory directory.now.directory }
    requires share { may_share 240 (B.means.device board.old).blocks directory.now.stores ≡ true }
    requires room { length buf.old ≡ 65536 }

    ensures loaded { IfOk result (λ loaded. IfSome (slice_get directory.now.stores at)
        (λ s. IsLoadedStore (TellsFlash B.means board.old) (B.means.flash board.old).content
        directory.now.now s loaded.index
        (record { used = loaded.used; stale = has_link s.links }))) }
    ensures unlawful { OnNotHeld result (TellsFlash B.means board.old
        → IfSome (slice_get directory.now.stores at)
        (IsUnlawful (B.means.flash board.old).content directory.now.now)) }
    ensures reads { ReadsOnly B.means (256 * links_at (slice_get directory.now.stores at))
        board.old board.new }
    ensures no_fault { UnlessFlash result
        ((B.means.counts board.new).flash_faults ≡ (B.means.counts board.old).flash_faults) }
    ensures cause { OnFlash result
        (Rose (B.means.counts board.old).flash_faults (B.means.counts board.new).flash_faults) }
{
    let row = directory.row(at);
    let links = directory.links(at);
    match load_store(alloc, board, row, links, directory.now(), RULE, buf) {
        Ok(loaded) => Ok(loaded),
        Err(stop) => Err(fault_of_load(stop)),
    }
}

// Loads the store at a place behind those in front of it.
fn load_next<B: Board>(
    alloc: Global,
    board: &mut B,
    directory: &Directory,
    at: u32,
    stores: &mut Stores,
    buf: &mut [u8],
) -> Result<(), OpenFault>
    requires within { at < length directory.now.stores }
    requires kept { IsDirectory directory.now.directory }
    requires share { may_share 240 (B.means.device board.old).blocks directory.now.stores ≡ true }
    requires room { length buf.old ≡ 65536 }

    ensures loaded { IfOk result (λ _. IfSome (slice_get directory.now.stores at) (λ s.
        GainsStore (IsLoadedStore (TellsFlash B.means board.old) (B.means.flash board.old).content
        directory.now.now s) (stores.old.indexes.items) (stores.old.lasts.items)
        stores.new.indexes.items stores.new.lasts.items)) }
    ensures unlawful { OnNotHeld result (TellsFlash B.means board.old
        → IfSome (slice_get directory.now.stores at)
        (IsUnlawful (B.means.flash board.old).content directory.now.now)) }
    ensures reads { ReadsOnly B.means (256 * links_at (slice_get directory.now.stores at))
        board.old board.new }
    ensures no_fault { UnlessFlash result
        ((B.means.counts board.new).flash_faults ≡ (B.means.counts board.old).flash_faults) }
    ensures cause { OnFlash result
        (Rose (B.means.counts board.old).flash_faults (B.means.counts board.new).flash_faults) }
{
    let stale = !directory.links(at).is_empty();
    match load_at(alloc, board, directory, at, buf) {
        Ok(loaded) => stores.push(loaded, stale).map_err(|_| OpenFault::NoMemory),
        Err(fault) => Err(fault),
    }
}

/// Loads all stores of a directory, which may share the device. It reads 256 pages at most for each
/// of their blocks, into `buf` of 65,536 octets, which may be any afterwards.
///
/// `NotHeld`: a store keeps no records on the flash. `Flash`: a read failed. `NoMemory`: an
/// allocation failed.
pub(crate) fn load_stores<B: Board>(
    alloc: Global,
    board: &mut B,
    directory: &Directory,
    buf: &mut [u8],
) -> Result<Stores, OpenFault>
    requires share { may_share 240 (B.means.device board.old).blocks directory.now.stores ≡ true }
    requires room { length buf.old ≡ 65536 }

    ensures loaded { IfOk result (λ stores. EachStore
        (IsLoadedStore (TellsFlash B.means board.old) (B.means.flash board.old).content
        directory.now.now) directory.now.stores stores.indexes.items stores.lasts.items) }
    ensures kept { IsDirectory directory.now.directory }
    ensures unlawful { OnNotHeld result (TellsFlash B.means board.old
        → each (store_of (B.means.flash board.old).content directory.now.now) directory.now.stores
        ≡ None) }
    ensures reads { ReadsOnly B.means (256 * length (all_links directory.now.stores))
        board.old board.new }
    ensures no_fault { UnlessFlash result
        ((B.means.counts board.new).flash_faults ≡ (B.means.counts board.old).flash_faults) }
    ensures cause { OnFlash result
        (Rose (B.means.counts board.old).flash_faults (B.means.counts board.new).flash_faults) }
{
    let mut stores = Stores::new(alloc);
    for at in 0..directory.len() {
        match load_next(alloc, board, directory, at, &mut stores, buf) {
            Ok(()) => {}
            Err(fault) => return Err(fault),
        }
    }
    Ok(stores)
}
