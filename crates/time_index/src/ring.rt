// The entries, and the number of the first record, with no sum kept beside them.
ghost use Rattle.std.specs.Prelude.{Some, ◌≡◌, ◌<◌, ◌≤◌, ◌+◌, ◌++◌, [], length, nat_le, nat_lt, take, slice_get, slice_index_or, IfOk};
ghost use Rattle.time_index.specs.declared.entry.Entry.{Entry};
ghost use Rattle.time_index.specs.TimeIndex.{EndsBy, HaveLengths, IsInOrder, count_below, count_up_to, pages_of, stamp_of, with_entry, with_entry_at, without_first};

use crate::entry::Entry;
use circular_buffer::HeapCircularBuffer;
use space_packet::charge;
use std::alloc::{AllocError, Global};
use std::marker::Model;

/// Entries in a ring, in the order of their stamps, and the number of the first one's record.
#[derive(Drop)]
pub struct Ring {
    entries: HeapCircularBuffer<Entry>,
    first: u32,
}

impl Model for Ring {
    ghost use Rattle.std.specs.Prelude.{◌≤◌, length};
    ghost use Rattle.time_index.specs.TimeIndex.{IsInOrder, TimeIndex};

    ghost Value = { TimeIndex };

    ghost view = { λ a. record {
      first = a.first;
      entries = a.entries.items;
      size = a.entries.capacity;
    } };

    ghost invariant = { λ a. (1 ≤ a.entries.capacity) × (a.entries.capacity ≤ 100000)
        × (length a.entries.items ≤ a.entries.capacity) × IsInOrder a.entries.items };
}

impl Ring {
    /// An empty ring with room for `size` entries, whose next entry has the number `first`.
    pub fn new(alloc: Global, size: u32, first: u32) -> Result<Ring, AllocError>
        requires least { 1 ≤ size }
        requires most { size ≤ 100000 }
        ensures { IfOk result (λ ring.
            ring ≡ record { first = first; entries = []; size = size }) }
    {
        let entries = HeapCircularBuffer::with_capacity(alloc, size as usize)?;
        Ok(Ring { entries, first })
    }

    /// The same entries with room for `size`.
    pub fn resized(&self, alloc: Global, size: u32) -> Result<Ring, AllocError>
        requires least { 1 ≤ size }
        requires most { size ≤ 100000 }
        requires holds { length self.now.entries ≤ size }
        ensures { IfOk result (λ ring. ring ≡ record self.now { size = size }) }
    {
        let mut entries = HeapCircularBuffer::with_capacity(alloc, size as usize)?;
        let (front, back) = self.entries.as_slices();
        entries.extend_from_slice(front);
        entries.extend_from_slice(back);
        Ok(Ring {
            entries,
            first: self.first,
        })
    }

    /// How many entries there are.
    pub fn len(&self) -> u32
        ensures len { result ≡ length self.now.entries }
        ensures within { result ≤ self.now.size }
        ensures order { IsInOrder self.now.entries }
    {
        self.entries.len() as u32
    }

    /// How many entries there may be.
    pub fn size(&self) -> u32
        ensures size { result ≡ self.now.size }
        ensures range { (1 ≤ result) × (result ≤ 100000) }
    {
        self.entries.capacity() as u32
    }

    /// The number of the first entry's record.
    pub fn first(&self) -> u32
        ensures { result ≡ self.now.first }
    {
        self.first
    }

    /// The entry at a position, counted from 0 at the front.
    pub fn entry(&self, position: u32) -> Entry
        requires { position < length self.now.entries }
        ensures { slice_get self.now.entries position ≡ Some result }
    {
        *self.entries.get(position as usize).unwrap()
    }

    /// Puts an entry at the end.
    pub fn push(&mut self, entry: Entry)
        requires room { length self.old.entries < self.old.size }
        requires order { EndsBy self.old.entries entry.stamp }
        ensures { self.new ≡ with_entry self.old entry }
    {
        self.entries.push_back(entry);
    }

    /// Takes the first `count` entries out. The first number goes on by as many, modulo 2^32.
    pub fn drop_front(&mut self, count: u32)
        requires { count ≤ length self.old.entries }
        ensures { self.new ≡ without_first self.old count }
    {
        self.entries
            .truncate_front(self.entries.len() - count as usize);
        self.first = self.first.wrapping_add(count);
    }

    /// Puts an entry with the same stamp in place of the one at a position.
    pub fn replace(&mut self, position: u32, entry: Entry)
        requires within { position < length self.old.entries }
        requires stamp { (d : Entry) → stamp_of (slice_index_or self.old.entries position d) ≡ entry.stamp }
        ensures { self.new ≡ with_entry_at self.old position entry }
    {
        if let Some(slot) = self.entries.get_mut(position as usize) {
            *slot = entry;
        }
    }

    /// The pages that the first `count` entries cost.
    pub fn pages_before(&self, count: u32) -> u32
        requires within { count ≤ length self.now.entries }
        requires size { length self.now.entries ≤ 100000 }
        requires lengths { HaveLengths self.now.entries }
        ensures { result ≡ pages_of (take count self.now.entries) }
    {
        let mut pages = 0u32;
        'entries: for i in 0..count {
            pages += charge(u32::from(self.entry(i).length));
        }
        pages
    }

    /// How many entries have a stamp below `t`, found by halving.
    pub fn first_at(&self, t: u64) -> u32
        ensures { result ≡ count_below self.now.entries t }
    {
        let (front, back) = self.runs();
        (count_below(front, t) + count_below(back, t)) as u32
    }

    /// How many entries have a stamp of at most `t`, found by halving.
    pub fn first_after(&self, t: u64) -> u32
        ensures { result ≡ count_up_to self.now.entries t }
    {
        let (front, back) = self.runs();
        (count_up_to(front, t) + count_up_to(back, t)) as u32
    }

    // The entries as two slices, one behind the other: the ring goes round the end of its room.
    fn runs(&self) -> (&[Entry], &[Entry])
        ensures all { result.0.now ++ result.1.now ≡ self.now.entries }
        ensures front { IsInOrder result.0.now }
        ensures back { IsInOrder result.1.now }
        ensures many { length result.0.now + length result.1.now ≤ 100000 }
    {
        self.entries.as_slices()
    }
}

// How many entries of a slice in order have a stamp below `t`.
fn count_below(entries: &[Entry], t: u64) -> usize
    requires { IsInOrder entries.now }
    ensures count { result ≡ count_below entries.now t }
    ensures within { result ≤ length entries.now }
{
    entries.partition_point(
        |entry: &Entry| -> bool
            ensures { result ≡ nat_lt (stamp_of entry.now) t }
        { entry.stamp < t },
    )
}

// How many entries of a slice in order have a stamp of at most `t`.
fn count_up_to(entries: &[Entry], t: u64) -> usize
    requires { IsInOrder entries.now }
    ensures count { result ≡ count_up_to entries.now t }
    ensures within { result ≤ length entries.now }
{
    entries.partition_point(
        |entry: &Entry| -> bool
            ensures { result ≡ nat_le (stamp_of entry.now) t }
        { entry.stamp <= t },
    )
}
