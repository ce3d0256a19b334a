// The directory in memory.
ghost use Rattle.std.specs.Prelude.{◌≡◌, ◌<◌, ◌≤◌, ◌^◌, ℕ, [], true, false, None, Some, Err, length, slice_get, is_ok, IfErr, IfOk, IfSome, OnOk, OnErr};
ghost use Rattle.control_defs.specs.Patterns.{IsPattern};
ghost use Rattle.store_directory.specs.Changes.{Change, Clock, Forward, apply};
ghost use Rattle.store_directory.specs.Directory.{IsDirectory, empty_directory, place_of, reserved_by};
ghost use Rattle.store_directory.specs.Kept.{IsChange, NeedsRoom, change_of, largest_after};
ghost use Rattle.store_directory.specs.Checkpoints.{is_lawful};
ghost use Rattle.store_directory.specs.Slots.{AreWithin, HasOwnSizes, largest_in};
ghost use Rattle.store_directory.specs.Spelled.{checkpoint_of, meaning_of};

use crate::change::Change;
use crate::change_text::Spelled;
use crate::checkpoint_text::CheckpointText;
use crate::fault::{ApplyFault, Unfit};
use crate::row::Row;
use crate::slot::change_patterns;
use crate::stores::Stores;
use control_defs::Patterns;
use record_view::Link;
use std::alloc::{AllocError, Global};
use std::marker::Model;

/// Reports are counted modulo this.
const REPORTS: u16 = 16_384;

// What a change that takes no memory answers.
fn fault_of(made: Result<(), Unfit>) -> Result<(), ApplyFault>
    ensures same { is_ok result ≡ is_ok made }
    ensures unfit { IfErr result (λ fault. fault ≡ ApplyFault.Unfit) }
{
    made.map_err(|_| ApplyFault::Unfit)
}

/// The directory of the packet stores (ECSS-E-ST-70-41C, 6.15): what is known of a table without its
/// packets, and the blocks in which these lie. At most 32 stores stand, in the order of creation,
/// and they reserve at most 504 blocks.
#[derive(Drop)]
pub struct Directory {
    time: u64,
    reports: u16,
    forward: Patterns,
    stores: Stores,
}

impl Model for Directory {
    ghost use Rattle.std.specs.Prelude.{◌<◌, ◌^◌};
    ghost use Rattle.store_directory.specs.Kept.{Kept};

    ghost Value = { Kept };

    ghost view = { λ d. record {
      directory = record {
        now = d.time;
        reports = d.reports;
        forward = d.forward;
        stores = d.stores.stores;
      };
      sizes = d.stores.sizes;
    } };

    ghost invariant = { λ d. (d.time < 2 ^ 48) × (d.reports < 16384) };
}

impl Directory {
    /// The directory of no store, with room for 32. Its time and its counts are 0.
    pub fn new(alloc: Global) -> Result<Directory, AllocError>
        ensures { IfOk result (λ d. d ≡ record { directory = empty_directory; sizes = [] }) }
    {
        Ok(Directory {
            time: 0,
            reports: 0,
            forward: Patterns::new(),
            stores: Stores::new(alloc)?,
        })
    }

    /// The last storage time that was given, in 1/65,536 seconds.
    pub fn now(&self) -> u64
        ensures now { result ≡ self.now.now }
        ensures range { result < 2 ^ 48 }
    {
        self.time
    }

    /// The number of reports made so far, modulo 16,384.
    pub fn reports(&self) -> u16
        ensures reports { result ≡ self.now.reports }
        ensures range { result < 16384 }
    {
        self.reports
    }

    /// The patterns of the packets that are forwarded.
    pub fn forward(&self) -> &Patterns
        ensures { result.now ≡ self.now.forward }
    {
        &self.forward
    }

    /// How many stores stand, at most 32. None of them is greater than the greatest size that its
    /// identifier has had, so a row that keeps the size of its store takes no memory.
    pub fn len(&self) -> u32
        ensures len { result ≡ length self.now.stores }
        ensures kept { IsDirectory self.now.directory }
        ensures within { AreWithin (record { stores = self.now.stores; sizes = self.now.sizes }) }
    {
        let _ = self.forward.list();
        self.stores.len()
    }

    /// The place of the store with this identifier among the stores.
    pub fn find(&self, identifier: u16) -> Option<u32>
        ensures place { result ≡ place_of identifier self.now.stores }
        ensures within { IfSome result (λ at. at < length self.now.stores) }
    {
        self.stores.find(identifier)
    }

    /// The row of the store at a place.
    pub fn row(&self, at: u32) -> &Row
        requires { at < length self.now.stores }
        ensures { IfSome (slice_get self.now.stores at) (λ s. result.now ≡ s.row) }
    {
        self.stores.row(at)
    }

    /// The patterns of what the store at a place stores.
    pub fn patterns(&self, at: u32) -> &Patterns
        requires { at < length self.now.stores }
        ensures { IfSome (slice_get self.now.stores at) (λ s. result.now ≡ s.patterns) }
    {
        self.stores.patterns(at)
    }

    /// The blocks of the store at a place.
    pub fn links(&self, at: u32) -> &[Link]
        requires { at < length self.now.stores }
        ensures { IfSome (slice_get self.now.stores at) (λ s. result.now ≡ s.links) }
    {
        self.stores.links(at)
    }

    /// The blocks that all stores reserve, at most 504.
    pub fn reserved(&self) -> u32
        ensures sum { result ≡ reserved_by self.now.stores }
        ensures most { result ≤ 504 }
    {
        self.stores.reserved()
    }

    // Sets the last storage time and the number of reports.
    fn set_clock(&mut self, now: u64, reports: u16) -> Result<(), Unfit>
        requires { now < 2 ^ 48 }
        ensures ok { OnOk result (apply self.old.directory (Clock now reports) ≡ Some self.new.directory) }
        ensures err { OnErr result ((apply self.old.directory (Clock now reports) ≡ None) × (self.new ≡ self.old)) }
        ensures sizes { self.new.sizes ≡ self.old.sizes }
    {
        if reports >= REPORTS {
            return Err(Unfit);
        }
        self.time = now;
        self.reports = reports;
        Ok(())
    }

    /// Makes a change, whose time is below 2^48 and whose APIDs are at most 2,047. It takes memory
    /// only for a new store, and for one that is to be greater than it has been. After an error all
    /// is as before.
    pub fn apply(&mut self, alloc: Global, change: &Change<'_>) -> Result<(), ApplyFault>
        requires { IsChange (change_of change.now) }
        ensures ok { OnOk result (apply self.old.directory (change_of change.now) ≡ Some self.new.directory) }
        ensures unfit { (result ≡ Err ApplyFault.Unfit) → (apply self.old.directory (change_of change.now) ≡ None) }
        ensures memory { (result ≡ Err ApplyFault.NoMemory)
            → NeedsRoom (change_of change.now) (largest_in self.old.sizes) }
        ensures err { OnErr result (self.new ≡ self.old) }
        ensures sizes { OnOk result ((identifier : ℕ) → largest_in self.new.sizes identifier
            ≡ largest_after (change_of change.now) (largest_in self.old.sizes) identifier) }
    {
        match *change {
            Change::Put(row) => self.stores.put(alloc, row),
            Change::Clock { now, reports } => fault_of(self.set_clock(now, reports)),
            Change::Gone(store) => fault_of(self.stores.remove(store)),
            Change::Forward { add, pattern } => {
                fault_of(change_patterns(&mut self.forward, add, pattern))
            }
            Change::Types {
                store,
                add,
                pattern,
            } => fault_of(self.stores.change_types(store, add, pattern)),
            Change::Links { store, links } => fault_of(self.stores.append(store, &links)),
            Change::Swap {
                store,
                block,
                first,
            } => fault_of(self.stores.swap_last(store, Link { block, first })),
        }
    }

    /// Makes a change that was read from a text.
    pub(crate) fn make(&mut self, alloc: Global, change: &Spelled<'_>) -> Result<(), ApplyFault>
        requires { IsChange (meaning_of change.now) }
        ensures ok { OnOk result (apply self.old.directory (meaning_of change.now) ≡ Some self.new.directory) }
        ensures unfit { (result ≡ Err ApplyFault.Unfit) → (apply self.old.directory (meaning_of change.now) ≡ None) }
        ensures memory { (result ≡ Err ApplyFault.NoMemory)
            → NeedsRoom (meaning_of change.now) (largest_in self.old.sizes) }
        ensures err { OnErr result (self.new ≡ self.old) }
        ensures sizes { OnOk result ((identifier : ℕ) → largest_in self.new.sizes identifier
            ≡ largest_after (meaning_of change.now) (largest_in self.old.sizes) identifier) }
    {
        match change {
            Spelled::Links { store, links } => fault_of(self.stores.append(*store, links)),
            Spelled::Other(change) => self.apply(alloc, change),
        }
    }

    /// The directory that a text spells. `Unfit` where it is not lawful.
    #[tactic(auto, unfolding(crate::specs::Checkpoints::is_lawful))]
    pub(crate) fn of_text(
        alloc: Global,
        text: &mut CheckpointText<'_>,
    ) -> Result<Directory, ApplyFault>
        requires { text.old.now < 2 ^ 48 }
        ensures ok { IfOk result (λ d. d.directory ≡ (checkpoint_of text.old).directory) }
        ensures own { IfOk result (λ d. HasOwnSizes (record { stores = d.stores; sizes = d.sizes })) }
        ensures lawful { IfOk result (λ d. is_lawful d.directory ≡ true) }
        ensures unfit { (result ≡ Err ApplyFault.Unfit)
            → (is_lawful (checkpoint_of text.old).directory ≡ false) }
        ensures wear { text.new.wear ≡ text.old.wear }
    {
        if text.reports >= REPORTS {
            return Err(ApplyFault::Unfit);
        }
        let Some(forward) = text.forward.to_patterns() else {
            return Err(ApplyFault::Unfit);
        };
        let Ok(mut stores) = Stores::new(alloc) else {
            return Err(ApplyFault::NoMemory);
        };
        stores.add_all(alloc, &mut text.stores)?;
        Ok(Directory {
            time: text.now,
            reports: text.reports,
            forward,
            stores,
        })
    }
}
