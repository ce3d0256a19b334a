// The index of a store, as its records are loaded one after another.
ghost use Rattle.std.specs.Prelude.{◌≡◌, [], ◌+◌, ◌<◌, ◌≤◌, ◌^◌, ◌&&◌, nat_le, None, Some, length, IsFalse, IsTrue};
ghost use Rattle.record_view.specs.Records.{records_left};
ghost use Rattle.record_view.specs.View.{meaning_of};
ghost use Rattle.store_load.specs.Extents.{pages_in};
ghost use Rattle.store_load.specs.Loading.{take_one, take_records};
ghost use Rattle.time_index.specs.TimeIndex.{pages_of};

use record_view::{RecordView, Records};
use space_packet::charge;
use std::marker::Model;
use time_index::{Entry, Index};

/// What the records of a store may be.
#[derive(Clone, Copy)]
pub(crate) struct Limits {
    /// The octets of the largest packet.
    pub(crate) largest: u32,
    /// No stamp is past this time.
    pub(crate) now: u64,
    /// The pages that the records may take.
    pub(crate) size: u32,
}

/// How far a store is loaded.
#[derive(Drop)]
pub(crate) struct Loading {
    index: Index,
    // how many records that are no longer the store's come before its first one
    dead: u32,
    // the stamp of the last record that was kept
    last: u64,
}

impl Model for Loading {
    ghost use Rattle.time_index.specs.TimeIndex.{EndsBy};
    ghost use Rattle.store_load.specs.Loading.{Progress};

    ghost Value = { Progress };

    ghost view = { λ l. record { index = l.index; dead = l.dead; last = l.last } };

    ghost invariant = { λ l. EndsBy l.index.entries l.last };
}

impl Loading {
    /// An index without an entry, in front of so many dead records.
    pub(crate) fn new(index: Index, dead: u32) -> Loading
        requires { index.entries ≡ [] }
        ensures { result ≡ record { index = index; dead = dead; last = 0 } }
    {
        Loading {
            index,
            dead,
            last: 0,
        }
    }

    /// The index.
    pub(crate) fn into_index(self) -> Index
        ensures { result ≡ self.index }
    {
        self.index
    }

    // Keeps a record that the block has at a page, or passes over it if it is dead. Whether the
    // limits allow it.
    fn take(&mut self, view: &RecordView<'_>, block: u16, page: u32, limits: Limits) -> bool
        requires page { page < 256 }
        requires short { length (meaning_of view.now).packet < 2 ^ 16 }
        requires size { self.old.index.size ≡ limits.size }
        ensures taken { IsTrue result
            → (take_one limits block page (meaning_of view.now) self.old ≡ Some self.new) }
        ensures refused { IsFalse result
            → (take_one limits block page (meaning_of view.now) self.old ≡ None) }
        ensures size { self.new.index.size ≡ limits.size }
    {
        let length = view.packet.bytes().len() as u32;
        if length > limits.largest {
            return false;
        }
        if self.dead > 0 {
            self.dead -= 1;
            return true;
        }
        if !self.may_follow(view.stamp, charge(length), limits) {
            return false;
        }
        self.index.push(Entry {
            stamp: view.stamp,
            block,
            page: page as u8,
            length: length as u16,
        });
        self.last = view.stamp;
        true
    }

    // Whether a record of this stamp and page cost may stand behind those that are kept.
    fn may_follow(&self, stamp: u64, pages: u32, limits: Limits) -> bool
        requires few { pages ≤ 256 }
        requires size { self.now.index.size ≡ limits.size }
        ensures { result ≡ (nat_le self.now.last stamp && nat_le stamp limits.now
            && nat_le (pages_of self.now.index.entries + pages) limits.size) }
    {
        self.last <= stamp
            && stamp <= limits.now
            && self.index.pages() <= limits.size
            && pages <= limits.size - self.index.pages()
    }

    /// Takes the records of a block, the first of which begins at a page. Whether the limits allow
    /// each of them.
    pub(crate) fn take_records(
        &mut self,
        records: &mut Records<'_>,
        block: u16,
        limits: Limits,
    ) -> bool
        requires size { self.old.index.size ≡ limits.size }
        ensures taken { IsTrue result → (take_records limits block records.old.page
            (records_left records.old) self.old ≡ Some self.new) }
        ensures refused { IsFalse result → (take_records limits block records.old.page
            (records_left records.old) self.old ≡ None) }
        ensures left { IsTrue result → (records.new.left + length (records_left records.old) ≡ records.old.left) }
        ensures pages { IsTrue result → (records.new.page ≡ records.old.page + pages_in (records_left records.old)) }
        ensures size { self.new.index.size ≡ limits.size }
    {
        let mut page = records.page();
        while let Some(view) = records.next_record() {
            let next = records.page();
            if !self.take(&view, block, page, limits) {
                return false;
            }
            page = next;
        }
        true
    }
}
