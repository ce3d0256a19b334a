// One store of a directory in memory.
ghost use Rattle.std.specs.Prelude.{◌≡◌, ◌+◌, ◌-◌, ◌≤◌, ◌<◌, ◌↔◌, ◌⊎◌, None, Some, Err, false, [], length, drop, OnOk, OnErr, IfOk, IsErr, IsTrue};
ghost use Rattle.std.specs.List.{prefix_len};
ghost use Rattle.block_pool.specs.Sizes.{blocks_for_size};
ghost use Rattle.control_defs.specs.Lists.{IsPatternList};
ghost use Rattle.control_defs.specs.Patterns.{IsPattern};
ghost use Rattle.store_directory.specs.Changes.{change_patterns, with_last, with_links, with_types};
ghost use Rattle.store_directory.specs.Directory.{IsListed, trimmed};
ghost use Rattle.store_directory.specs.Rows.{FitsRow, is_by, is_lawful_row};
ghost use Rattle.store_directory.specs.Checkpoints.{is_lawful_listed};
ghost use Rattle.store_directory.specs.Spelled.{text_of};
ghost use Rattle.store_directory.specs.Slots.{IsSlot, KeepsSlot, PutsRow, listed_of};

use crate::fault::{ApplyFault, Unfit};
use crate::link_text::{LinkList, in_range};
use crate::links::Links;
use crate::row::Row;
use crate::store_text::StoreText;
use block_pool::blocks_for;
use control_defs::{Pattern, Patterns};
use record_view::Link;
use std::alloc::{AllocError, Global};

/// A store, and the greatest size that it has had.
#[derive(Drop)]
pub(crate) struct Slot {
    pub(crate) row: Row,
    pub(crate) patterns: Patterns,
    pub(crate) links: Links,
    pub(crate) largest: u32,
}

/// Adds a pattern to a list, or else removes it.
pub(crate) fn change_patterns(
    patterns: &mut Patterns,
    add: bool,
    pattern: Pattern,
) -> Result<(), Unfit>
    requires { IsPattern pattern }
    ensures ok { OnOk result (change_patterns add pattern patterns.old ≡ Some patterns.new) }
    ensures err { OnErr result ((change_patterns add pattern patterns.old ≡ None) × (patterns.new ≡ patterns.old)) }
    ensures lawful { IsPatternList patterns.new }
{
    let changed = if add {
        patterns.add(pattern).is_ok()
    } else {
        patterns.remove(pattern).is_ok()
    };
    if changed { Ok(()) } else { Err(Unfit) }
}

// Whether a record number is at another one or before it, where numbers begin again at 2^32.
fn is_by(number: u32, later: u32) -> bool
    ensures { result ≡ is_by number later }
{
    later.wrapping_sub(number) < 1 << 31
}

// How many links from the front have a next one that begins at a record or before it.
fn count_passed(links: &[Link], first: u32) -> usize
    ensures { result ≡ prefix_len (λ next. is_by next.first first) (drop 1 links.now) }
{
    links
        .iter()
        .skip(1)
        .take_while(|next| is_by(next.first, first))
        .count()
}

impl Slot {
    /// A new store, with room for all the links that it may have.
    pub(crate) fn new(alloc: Global, row: Row) -> Result<Slot, AllocError>
        requires lawful { IsTrue (is_lawful_row row) }
        requires fits { FitsRow row }
        ensures listed { IfOk result (λ slot. listed_of slot ≡ record { row = row; patterns = []; links = [] }) }
        ensures largest { IfOk result (λ slot. slot.largest ≡ row.size) }
        ensures slot { IfOk result IsSlot }
    {
        let links = Links::with_room(alloc, blocks_for(row.size) as usize)?;
        Ok(Slot {
            row,
            patterns: Patterns::new(),
            links,
            largest: row.size,
        })
    }

    /// The store that a text spells. `Unfit` where it may not stand.
    pub(crate) fn of_text(alloc: Global, store: &StoreText<'_>) -> Result<Slot, ApplyFault>
        requires fits { FitsRow store.now.row }
        ensures listed { IfOk result (λ slot. listed_of slot ≡ text_of store.now) }
        ensures largest { IfOk result (λ slot. slot.largest ≡ store.now.row.size) }
        ensures slot { IfOk result IsSlot }
        ensures unfit { (result ≡ Err ApplyFault.Unfit) → (is_lawful_listed (text_of store.now) ≡ false) }
    {
        let Some(patterns) = store.patterns.to_patterns() else {
            return Err(ApplyFault::Unfit);
        };
        if !store.row.is_lawful() {
            return Err(ApplyFault::Unfit);
        }
        let Ok(mut slot) = Slot::new(alloc, store.row) else {
            return Err(ApplyFault::NoMemory);
        };
        slot.patterns = patterns;
        if store.links.len() > 0 && slot.append(&store.links).is_err() {
            return Err(ApplyFault::Unfit);
        }
        Ok(slot)
    }

    // How many links at the front go, since their blocks hold none of the records of a row: all if it
    // has none, and else each whose next one begins at the row's first record or before it.
    fn count_gone(&self, row: &Row) -> usize
        ensures within { result ≤ length self.now.links.items }
        ensures left { trimmed row.now.first row.now.count self.now.links.items ≡ drop result self.now.links.items }
    {
        let links = self.links.list();
        if row.count == 0 {
            return links.len();
        }
        count_passed(links, row.first)
    }

    /// Puts a row in the place of the one that the store has, and takes out the links that hold no
    /// record of it. There are no more of them left than blocks that it reserves. Takes memory only
    /// if its size is greater than each that the store has had.
    pub(crate) fn put(&mut self, row: Row) -> Result<(), ApplyFault>
        requires lawful { IsTrue (is_lawful_row row) }
        requires fits { FitsRow row }
        requires slot { IsSlot self.old }
        ensures ok { OnOk result (PutsRow row self.old self.new) }
        ensures unfit { (result ≡ Err ApplyFault.Unfit)
            ↔ (blocks_for_size row.size < length (trimmed row.first row.count self.old.links.items)) }
        ensures memory { result ≡ Err ApplyFault.NoMemory → self.old.largest < row.size }
        ensures err { OnErr result (self.new ≡ self.old) }
        ensures all_or_nothing { PutsRow row self.old self.new ⊎ (self.new ≡ self.old) }
    {
        let gone = self.count_gone(&row);
        let room = blocks_for(row.size) as usize;
        if self.links.list().len() - gone > room {
            return Err(ApplyFault::Unfit);
        }
        if row.size > self.largest {
            self.links.reserve(room).map_err(|_| ApplyFault::NoMemory)?;
            self.largest = row.size;
        }
        self.links.drop_front(gone);
        self.row = row;
        Ok(())
    }

    /// Adds a pattern to those of the store, or else removes it.
    pub(crate) fn change_types(&mut self, add: bool, pattern: Pattern) -> Result<(), Unfit>
        requires { IsPattern pattern }
        ensures ok { OnOk result (with_types add pattern (listed_of self.old) ≡ Some (listed_of self.new)) }
        ensures err { OnErr result ((with_types add pattern (listed_of self.old) ≡ None) × (self.new ≡ self.old)) }
        ensures keeps { KeepsSlot self.old self.new }
    {
        change_patterns(&mut self.patterns, add, pattern)
    }

    /// Puts links behind those of the store. There are some, and they are no more than the blocks
    /// that the store reserves.
    pub(crate) fn append<L: LinkList>(&mut self, links: &L) -> Result<(), Unfit>
        requires { IsSlot self.old }
        ensures ok { OnOk result (with_links (L.listed links.now) (listed_of self.old) ≡ Some (listed_of self.new)) }
        ensures err { OnErr result ((with_links (L.listed links.now) (listed_of self.old) ≡ None) × (self.new ≡ self.old)) }
        ensures keeps { KeepsSlot self.old self.new }
    {
        let most = blocks_for(self.row.size) as usize;
        if links.len() == 0 || links.len() > most - self.links.list().len() {
            return Err(Unfit);
        }
        for at in 0..links.len() {
            self.links.push(links.get(at));
        }
        Ok(())
    }

    /// Puts a link in the place of the last one.
    pub(crate) fn swap_last(&mut self, link: Link) -> Result<(), Unfit>
        ensures ok { OnOk result (with_last link (listed_of self.old) ≡ Some (listed_of self.new)) }
        ensures err { OnErr result ((with_last link (listed_of self.old) ≡ None) × (self.new ≡ self.old)) }
        ensures keeps { KeepsSlot self.old self.new }
    {
        if self.links.list().is_empty() {
            return Err(Unfit);
        }
        self.links.replace_last(in_range(link));
        Ok(())
    }
}
