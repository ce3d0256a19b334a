// Changes of a store, made in memory and written into the text of an entry.
ghost use Rattle.std.specs.Prelude.{◌≡◌, ◌<◌, ◌≤◌, ◌+◌, ◌++◌, ◌∷◌, [], Some, IfSome, IsSome, drop, length, slice_get};
ghost use Rattle.put_laws.specs.Indexes.{index_behind_put};
ghost use Rattle.put_laws.specs.Puts.{row_behind_put};
ghost use Rattle.space_packet.specs.Charge.{charge_of};
ghost use Rattle.store_directory.specs.Changes.{Put, apply};
ghost use Rattle.store_directory.specs.Entries.{CanBeWritten, change_octets};
ghost use Rattle.store_directory.specs.Kept.{IsChange, NeedsRoom, change_of};
ghost use Rattle.store_directory.specs.Slots.{largest_in};
ghost use Rattle.store_policy.specs.Shown.{AreTogether};
ghost use Rattle.store_put.specs.Making.{AreShared, Makes, changes_of_refusal};
ghost use Rattle.time_index.specs.TimeIndex.{EndsBy, pages_of};

use crate::entry_text::EntryText;
use crate::row_behind::row_behind_put;
use std::alloc::Global;
use store_directory::{Change, Directory, Row};
use time_index::{Entry, Index};

/// Makes a change that fits and takes no memory, and writes it behind the others.
pub fn make_change(
    alloc: Global,
    directory: &mut Directory,
    change: &Change<'_>,
    text: &mut EntryText,
)
    requires is_change { IsChange (change_of change.now) }
    requires can_be_written { CanBeWritten (change_of change.now) }
    requires fits { IsSome (apply directory.old.directory (change_of change.now)) }
    requires memory { NeedsRoom (change_of change.now) (largest_in directory.old.sizes) → ⊥ }
    requires room { length text.old + length (change_octets (change_of change.now)) ≤ 1321 }
    ensures { Makes (change_of change.now ∷ []) directory.old.directory directory.new.directory
        text.old text.new }
{
    text.push(change);
    let _ = directory.apply(alloc, change);
}

/// The store at a place refuses a packet. It tells that if it has told no refusal since its last put.
pub fn tell_refusal(alloc: Global, directory: &mut Directory, at: u32, text: &mut EntryText)
    requires within { at < length directory.old.stores }
    requires share { AreShared directory.old.stores }
    requires room { length text.old + 30 ≤ 1321 }
    ensures { IfSome (slice_get directory.old.stores at) (λ s. Makes (changes_of_refusal s.row)
        directory.old.directory directory.new.directory text.old text.new) }
{
    // the number of stores is not used: with it comes what the directory keeps
    let _ = directory.len();
    let row = *directory.row(at);
    if !row.told {
        make_change(
            alloc,
            directory,
            &Change::Put(Row { told: true, ..row }),
            text,
        );
    }
}

/// The record of a packet counts as the last one of the store at a place, whose index this is, behind
/// so many packets that leave the front.
pub fn count_record(
    alloc: Global,
    directory: &mut Directory,
    index: &mut Index,
    at: u32,
    leaving: u32,
    entry: Entry,
    text: &mut EntryText,
)
    requires within { at < length directory.old.stores }
    requires share { AreShared directory.old.stores }
    requires together { IfSome (slice_get directory.old.stores at)
        (λ s. AreTogether s.row index.old) }
    requires leaving { leaving ≤ length index.old.entries }
    requires pages { pages_of (drop leaving index.old.entries) + charge_of entry.length
        ≤ index.old.size }
    requires order { EndsBy (drop leaving index.old.entries) entry.stamp }
    requires room { length text.old + 30 ≤ 1321 }
    ensures made { IfSome (slice_get directory.old.stores at) (λ s.
        Makes (Put (row_behind_put leaving s.row) ∷ []) directory.old.directory
        directory.new.directory text.old text.new) }
    ensures index { index.new ≡ index_behind_put leaving entry index.old }
{
    // the number of stores is not used: with it comes what the directory keeps
    let _ = directory.len();
    let row = row_behind_put(directory.row(at), leaving);
    make_change(alloc, directory, &Change::Put(row), text);
    index.drop_front(leaving);
    index.push(entry);
}
