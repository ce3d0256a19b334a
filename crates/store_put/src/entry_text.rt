// The text of a journal entry, written change by change.
ghost use Rattle.std.specs.Prelude.{◌≡◌, ◌≤◌, ◌+◌, ◌++◌, [], length};
ghost use Rattle.store_directory.specs.Entries.{CanBeWritten, change_octets};
ghost use Rattle.store_directory.specs.Kept.{change_of};

use std::marker::Model;
use store_directory::{Change, write_change};

/// The octets of the longest entry of an arrival: 9 of a clock, and 41 for each of 32 stores.
const LONGEST: usize = 1_321;

/// The text of an entry, of at most 1,321 octets.
#[derive(Drop)]
pub struct EntryText {
    octets: [u8; 1_321],
    size: u32,
}

impl Model for EntryText {
    ghost use Rattle.std.specs.Prelude.{◌≤◌, ℕ, List, length, take};

    ghost Value = { List ℕ };

    ghost view = { λ text. take text.size text.octets };

    ghost invariant = { λ text. text.size ≤ 1321 };
}

impl EntryText {
    /// The text of no change.
    pub fn new() -> EntryText
        ensures { result ≡ [] }
    {
        EntryText {
            octets: [0; LONGEST],
            size: 0,
        }
    }

    /// Writes a change behind the others.
    pub fn push(&mut self, change: &Change<'_>)
        requires fits { CanBeWritten (change_of change.now) }
        requires room { length self.old + length (change_octets (change_of change.now)) ≤ 1321 }
        ensures { self.new ≡ self.old ++ change_octets (change_of change.now) }
    {
        self.size = write_change(change, self.size, &mut self.octets);
    }

    /// The octets so far.
    pub fn octets(&self) -> &[u8]
        ensures octets { result.now ≡ self.now }
        ensures longest { length result.now ≤ 1321 }
    {
        &self.octets[..self.size as usize]
    }
}
