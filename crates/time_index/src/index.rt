// The time index. Each call's contract is exact, and what it does not name stays.
ghost use Rattle.std.specs.Prelude.{Some, ◌≡◌, ◌<◌, ◌≤◌, [], length, slice_get, IfOk};
ghost use Rattle.time_index.specs.TimeIndex.{EndsBy, HasLengthAt, HasStampAt, IsInOrder, count_below, count_up_to, pages_of, with_entry, with_entry_at, without_first};

use crate::entry::Entry;
use crate::ring::Ring;
use space_packet::charge;
use std::alloc::{AllocError, Global};
use std::marker::Model;

/// The packets of a store in the order of their times, which never fall, with the number of the
/// first one's record. Its room, of 1 to 100,000 entries, is taken by `new` and `resized`; no other
/// call takes memory.
#[derive(Drop)]
pub struct Index {
    ring: Ring,
    // kept, so that no call sums over all entries
    pages: u32,
}

impl Model for Index {
    ghost use Rattle.std.specs.Prelude.{◌≡◌, ◌≤◌, length};
    ghost use Rattle.time_index.specs.TimeIndex.{HaveLengths, TimeIndex, pages_of};

    ghost Value = { TimeIndex };

    ghost view = { λ a. a.ring };

    ghost invariant = { λ a. (a.pages ≡ pages_of a.ring.entries)
        × (length a.ring.entries ≤ a.ring.size) × (a.ring.size ≤ 100000)
        × HaveLengths a.ring.entries };
}

impl Index {
    /// An empty index with room for `size` entries, from 1 to 100,000; the next entry's record has
    /// the number `first`. An error is an allocation failure.
    pub fn new(alloc: Global, size: u32, first: u32) -> Result<Index, AllocError>
        requires least { 1 ≤ size }
        requires most { size ≤ 100000 }
        ensures { IfOk result (λ index.
            index ≡ record { first = first; entries = []; size = size }) }
    {
        let ring = Ring::new(alloc, size, first)?;
        Ok(Index { ring, pages: 0 })
    }

    /// Another index with the same entries and the same first number, and with room for `size`
    /// entries, from 1 to 100,000 and no fewer than there are. This one stays as it is. An error is
    /// an allocation failure.
    pub fn resized(&self, alloc: Global, size: u32) -> Result<Index, AllocError>
        requires least { 1 ≤ size }
        requires most { size ≤ 100000 }
        requires holds { length self.now.entries ≤ size }
        ensures { IfOk result (λ index. index ≡ record self.now { size = size }) }
    {
        let ring = self.ring.resized(alloc, size)?;
        Ok(Index {
            ring,
            pages: self.pages,
        })
    }

    /// How many entries there are: at most `size()`. Their stamps never fall.
    pub fn len(&self) -> u32
        ensures len { result ≡ length self.now.entries }
        ensures within { result ≤ self.now.size }
        ensures order { IsInOrder self.now.entries }
    {
        self.ring.len()
    }

    /// How many entries there may be: from 1 to 100,000.
    pub fn size(&self) -> u32
        ensures size { result ≡ self.now.size }
        ensures range { (1 ≤ result) × (result ≤ 100000) }
    {
        self.ring.size()
    }

    /// The number of the first entry's record; of the next one's in an empty index.
    pub fn first(&self) -> u32
        ensures { result ≡ self.now.first }
    {
        self.ring.first()
    }

    /// The pages of 256 octets that all entries' packets cost. It is kept, not summed.
    pub fn pages(&self) -> u32
        ensures { result ≡ pages_of self.now.entries }
    {
        self.pages
    }

    /// The entry at a position below `len()`, counted from 0 at the front.
    pub fn entry(&self, position: u32) -> Entry
        requires { position < length self.now.entries }
        ensures { slice_get self.now.entries position ≡ Some result }
    {
        self.ring.entry(position)
    }

    /// Puts an entry at the end. There is room, and its stamp is not below the last one's. Size and
    /// first number stay.
    pub fn push(&mut self, entry: Entry)
        requires room { length self.old.entries < self.old.size }
        requires order { EndsBy self.old.entries entry.stamp }
        ensures { self.new ≡ with_entry self.old entry }
    {
        self.pages += charge(u32::from(entry.length));
        self.ring.push(entry);
    }

    /// Takes the first `count` entries out, at most `len()`. The first number rises by as many, and
    /// goes on from 4,294,967,295 to 0. The size stays.
    pub fn drop_front(&mut self, count: u32)
        requires { count ≤ length self.old.entries }
        ensures { self.new ≡ without_first self.old count }
    {
        self.pages -= self.ring.pages_before(count);
        self.ring.drop_front(count);
    }

    /// Puts an entry in place of the one at a position below `len()`, which has the same stamp and
    /// the same length. The other entries, size and first number stay.
    pub fn replace(&mut self, position: u32, entry: Entry)
        requires within { position < length self.old.entries }
        requires stamp { HasStampAt self.old.entries position entry.stamp }
        requires length { HasLengthAt self.old.entries position entry.length }
        ensures { self.new ≡ with_entry_at self.old position entry }
    {
        self.ring.replace(position, entry);
    }

    /// How many entries have a stamp below `t`, found by halving.
    pub fn first_at(&self, t: u64) -> u32
        ensures { result ≡ count_below self.now.entries t }
    {
        self.ring.first_at(t)
    }

    /// How many entries have a stamp of at most `t`, found by halving.
    pub fn first_after(&self, t: u64) -> u32
        ensures { result ≡ count_up_to self.now.entries t }
    {
        self.ring.first_after(t)
    }
}
