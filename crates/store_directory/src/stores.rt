// The stores of a directory in memory, in the order of creation.
ghost use Rattle.std.specs.Prelude.{◌≡◌, ◌+◌, ◌-◌, ◌≤◌, ◌<◌, ◌↔◌, ◌∷◌, ◌++◌, ℕ, List, [], None, Some, Err, false, length, nat_eq, nat_lt, slice_get, if◌then◌else◌, IfErr, IfNone, IfOk, IfSome, OnOk, OnErr, IsTrue};
ghost use Rattle.block_pool.specs.Sizes.{blocks_for_size};
ghost use Rattle.control_defs.specs.Patterns.{IsPattern};
ghost use Rattle.store_directory.specs.Changes.{change_store, put_row, remove_store, with_last, with_links, with_types};
ghost use Rattle.store_directory.specs.Checkpoints.{are_lawful};
ghost use Rattle.store_directory.specs.Directory.{AreListed, Listed, place_of, reserved_by};
ghost use Rattle.store_directory.specs.Rows.{FitsRow, is_lawful_row};
ghost use Rattle.store_directory.specs.Spelled.{text_of};
ghost use Rattle.store_directory.specs.Slots.{AddsStore, AreWithin, HasOwnSizes, IsSlot, PutsStore, largest_in, listed_of};

use crate::fault::{ApplyFault, Unfit};
use crate::link_text::LinkList;
use crate::row::Row;
use crate::slot::Slot;
use crate::store_text::{StoreText, StoresText};
use block_pool::{blocks_for, fits};
use control_defs::{Pattern, Patterns};
use indexmap::IndexMap;
use record_view::Link;
use std::alloc::{AllocError, Global};
use std::marker::Model;

/// The most stores that may stand.
const MOST_STORES: u32 = 32;

/// The blocks of the largest device: on it the stores may reserve 504.
const MOST_BLOCKS: u32 = 512;

#[derive(Drop)]
pub(crate) struct Stores {
    slots: IndexMap<u16, Slot>,
}

impl Model for Stores {
    ghost use Rattle.store_directory.specs.Slots.{AreSlots, Held, sizes_of, stores_of};

    ghost Value = { Held };

    ghost view = { λ stores. record {
      stores = stores_of stores.slots.entries;
      sizes = sizes_of stores.slots.entries;
    } };

    ghost invariant = { λ stores. AreSlots stores.slots.entries };
}

impl Stores {
    /// No store, and room for 32.
    pub(crate) fn new(alloc: Global) -> Result<Stores, AllocError>
        ensures { IfOk result (λ stores. stores ≡ record { stores = []; sizes = [] }) }
    {
        let slots = IndexMap::with_capacity(alloc, MOST_STORES as usize)?;
        Ok(Stores { slots })
    }

    pub(crate) fn len(&self) -> u32
        ensures len { result ≡ length self.now.stores }
        ensures kept { AreListed self.now.stores }
        ensures within { AreWithin self.now }
    {
        self.slots.len() as u32
    }

    /// The place of the store with this identifier.
    pub(crate) fn find(&self, identifier: u16) -> Option<u32>
        ensures place { result ≡ place_of identifier self.now.stores }
        ensures within { IfSome result (λ at. at < length self.now.stores) }
        ensures new { IfNone result (largest_in self.now.sizes identifier ≡ 0) }
    {
        match self.slots.get_index_of(&identifier) {
            Some(at) => Some(at as u32),
            None => None,
        }
    }

    pub(crate) fn row(&self, at: u32) -> &Row
        requires { at < length self.now.stores }
        ensures { IfSome (slice_get self.now.stores at) (λ s. result.now ≡ s.row) }
    {
        let (_, slot) = self.slots.get_index(at as usize).unwrap();
        &slot.row
    }

    pub(crate) fn patterns(&self, at: u32) -> &Patterns
        requires { at < length self.now.stores }
        ensures { IfSome (slice_get self.now.stores at) (λ s. result.now ≡ s.patterns) }
    {
        let (_, slot) = self.slots.get_index(at as usize).unwrap();
        &slot.patterns
    }

    pub(crate) fn links(&self, at: u32) -> &[Link]
        requires { at < length self.now.stores }
        ensures { IfSome (slice_get self.now.stores at) (λ s. result.now ≡ s.links) }
    {
        let (_, slot) = self.slots.get_index(at as usize).unwrap();
        slot.links.list()
    }

    /// The blocks that all stores reserve.
    pub(crate) fn reserved(&self) -> u32
        ensures sum { result ≡ reserved_by self.now.stores }
        ensures most { result ≤ 504 }
    {
        let mut sum = 0u32;
        for at in 0..self.len() {
            sum += blocks_for(self.row(at).size);
        }
        sum
    }

    // Whether one more store, of this size, may stand.
    fn has_place(&self, size: u32) -> bool
        ensures { IsTrue result ↔ (length self.now.stores < 32)
            × (reserved_by self.now.stores + blocks_for_size size ≤ 504) }
    {
        self.len() < MOST_STORES && fits(self.reserved(), blocks_for(size), 0, MOST_BLOCKS)
    }

    // Whether the store at a place may have this size.
    fn may_resize(&self, at: u32, size: u32) -> bool
        requires { at < length self.now.stores }
        ensures { IfSome (slice_get self.now.stores at) (λ s. IsTrue result
            ↔ (reserved_by self.now.stores + blocks_for_size size ≤ 504 + blocks_for_size s.size)) }
    {
        let old = blocks_for(self.row(at).size);
        fits(self.reserved(), blocks_for(size), old, MOST_BLOCKS)
    }

    // Puts a store behind the others.
    fn push(&mut self, slot: Slot) -> Result<(), AllocError>
        requires fresh { place_of slot.row.identifier self.old.stores ≡ None }
        requires few { length self.old.stores < 32 }
        requires blocks { reserved_by self.old.stores + blocks_for_size slot.row.size ≤ 504 }
        requires slot { IsSlot slot }
        ensures ok { OnOk result (AddsStore (listed_of slot) slot.largest self.old self.new) }
        ensures err { OnErr result (self.new ≡ self.old) }
    {
        self.slots.insert(slot.row.identifier, slot)?;
        Ok(())
    }

    // Makes a new store, which has no pattern and no block, and puts it behind the others.
    fn create(&mut self, alloc: Global, row: Row) -> Result<(), AllocError>
        requires fresh { place_of row.identifier self.old.stores ≡ None }
        requires new { largest_in self.old.sizes row.identifier ≡ 0 }
        requires lawful { IsTrue (is_lawful_row row) }
        requires fits { FitsRow row }
        requires few { length self.old.stores < 32 }
        requires blocks { reserved_by self.old.stores + blocks_for_size row.size ≤ 504 }
        ensures ok { OnOk result (PutsStore row self.old self.new) }
        ensures err { OnErr result (self.new ≡ self.old) }
    {
        let slot = Slot::new(alloc, row)?;
        self.push(slot)?;
        Ok(())
    }

    // Puts a row in the place of the one that a store has.
    fn replace(&mut self, at: u32, row: Row) -> Result<(), ApplyFault>
        requires stands { place_of row.identifier self.old.stores ≡ Some at }
        requires lawful { IsTrue (is_lawful_row row) }
        requires fits { FitsRow row }
        requires blocks { IfSome (slice_get self.old.stores at) (λ s.
            reserved_by self.old.stores + blocks_for_size row.size ≤ 504 + blocks_for_size s.size) }
        ensures ok { OnOk result (PutsStore row self.old self.new) }
        ensures unfit { (result ≡ Err ApplyFault.Unfit) → (put_row row self.old.stores ≡ None) }
        ensures memory { (result ≡ Err ApplyFault.NoMemory) → (largest_in self.old.sizes row.identifier < row.size) }
        ensures err { OnErr result (self.new ≡ self.old) }
    {
        let (_, slot) = self.slots.pair_mut(at as usize);
        slot.put(row)
    }

    /// A store's row becomes this one, or a new store goes last. Memory is taken for a new store, and
    /// for one that is to be greater than it has been.
    pub(crate) fn put(&mut self, alloc: Global, row: Row) -> Result<(), ApplyFault>
        ensures ok { OnOk result (PutsStore row self.old self.new) }
        ensures unfit { (result ≡ Err ApplyFault.Unfit) → (put_row row self.old.stores ≡ None) }
        ensures memory { (result ≡ Err ApplyFault.NoMemory) → (largest_in self.old.sizes row.identifier < row.size) }
        ensures err { OnErr result (self.new ≡ self.old) }
    {
        if !row.is_lawful() {
            return Err(ApplyFault::Unfit);
        }
        match self.find(row.identifier) {
            Some(at) if self.may_resize(at, row.size) => self.replace(at, row),
            None if self.has_place(row.size) => self
                .create(alloc, row)
                .map_err(|_| ApplyFault::NoMemory),
            _ => Err(ApplyFault::Unfit),
        }
    }

    /// Puts a store that a text spells behind the others. `Unfit` where no stores may stand that begin
    /// with these and it.
    pub(crate) fn add(&mut self, alloc: Global, store: &StoreText<'_>) -> Result<(), ApplyFault>
        requires fits { FitsRow store.now.row }
        ensures ok { OnOk result (AddsStore (text_of store.now) store.now.row.size self.old self.new) }
        ensures unfit { (result ≡ Err ApplyFault.Unfit) → ((rest : List Listed)
            → are_lawful (self.old.stores ++ text_of store.now ∷ rest) ≡ false) }
    {
        if self.find(store.row.identifier).is_some() {
            return Err(ApplyFault::Unfit);
        }
        if !self.has_place(store.row.size) {
            return Err(ApplyFault::Unfit);
        }
        match Slot::of_text(alloc, store) {
            Ok(slot) => self.push(slot).map_err(|_| ApplyFault::NoMemory),
            Err(fault) => Err(fault),
        }
    }

    /// Puts all stores that a text spells behind the others. `Unfit` where they may not stand together.
    pub(crate) fn add_all(
        &mut self,
        alloc: Global,
        stores: &mut StoresText<'_>,
    ) -> Result<(), ApplyFault>
        ensures ok { OnOk result (self.new.stores ≡ self.old.stores ++ stores.old) }
        ensures own { OnOk result (HasOwnSizes self.old → HasOwnSizes self.new) }
        ensures unfit { (result ≡ Err ApplyFault.Unfit)
            → (are_lawful (self.old.stores ++ stores.old) ≡ false) }
    {
        while let Some(store) = stores.next_store() {
            self.add(alloc, &store)?;
        }
        Ok(())
    }

    /// The store with this identifier goes. The others keep their order.
    pub(crate) fn remove(&mut self, identifier: u16) -> Result<(), Unfit>
        ensures ok { OnOk result (remove_store identifier self.old.stores ≡ Some self.new.stores) }
        ensures largest { OnOk result ((other : ℕ) → largest_in self.new.sizes other
            ≡ (if nat_eq other identifier then 0 else largest_in self.old.sizes other)) }
        ensures err { OnErr result ((remove_store identifier self.old.stores ≡ None) × (self.new ≡ self.old)) }
    {
        if self.find(identifier).is_none() {
            return Err(Unfit);
        }
        self.slots.shift_remove(&identifier);
        Ok(())
    }

    /// Adds a pattern to those of a store, or else removes it.
    pub(crate) fn change_types(
        &mut self,
        store: u16,
        add: bool,
        pattern: Pattern,
    ) -> Result<(), Unfit>
        requires { IsPattern pattern }
        ensures ok { OnOk result (change_store store (with_types add pattern) self.old.stores ≡ Some self.new.stores) }
        ensures err { OnErr result ((change_store store (with_types add pattern) self.old.stores ≡ None) × (self.new ≡ self.old)) }
        ensures sizes { self.new.sizes ≡ self.old.sizes }
    {
        let Some(at) = self.find(store) else {
            return Err(Unfit);
        };
        let (_, slot) = self.slots.pair_mut(at as usize);
        slot.change_types(add, pattern)
    }

    /// Puts links behind those of a store.
    pub(crate) fn append<L: LinkList>(&mut self, store: u16, links: &L) -> Result<(), Unfit>
        ensures ok { OnOk result (change_store store (with_links (L.listed links.now)) self.old.stores ≡ Some self.new.stores) }
        ensures err { OnErr result ((change_store store (with_links (L.listed links.now)) self.old.stores ≡ None) × (self.new ≡ self.old)) }
        ensures sizes { self.new.sizes ≡ self.old.sizes }
    {
        let Some(at) = self.find(store) else {
            return Err(Unfit);
        };
        let (_, slot) = self.slots.pair_mut(at as usize);
        slot.append(links)
    }

    /// Puts a link in the place of the last one of a store.
    pub(crate) fn swap_last(&mut self, store: u16, link: Link) -> Result<(), Unfit>
        ensures ok { OnOk result (change_store store (with_last link) self.old.stores ≡ Some self.new.stores) }
        ensures err { OnErr result ((change_store store (with_last link) self.old.stores ≡ None) × (self.new ≡ self.old)) }
        ensures sizes { self.new.sizes ≡ self.old.sizes }
    {
        let Some(at) = self.find(store) else {
            return Err(Unfit);
        };
        let (_, slot) = self.slots.pair_mut(at as usize);
        slot.swap_last(link)
    }
}
