// The changes of an entry's text, made in order.
ghost use Rattle.std.specs.Prelude.{◌≡◌, ◌≢◌, ◌<◌, ◌≤◌, ◌^◌, None, Some, length, IfErr, IfOk, OnErr, OnOk};
ghost use Rattle.store_directory.specs.Folds.{MakesOne, Stops, StopsHere, fold_entry};

use crate::change_text::read_change;
use crate::directory::Directory;
use crate::fault::{ApplyFault, FoldFault};
use std::alloc::Global;

impl Directory {
    // Makes the change at a place of the text, and answers the place behind it.
    fn fold_one(&mut self, alloc: Global, text: &[u8], at: usize) -> Result<usize, FoldFault>
        requires short { length text.now < 2 ^ 32 }
        requires some { at < length text.now }
        ensures ok { IfOk result (λ next. MakesOne text.now at next self.old self.new) }
        ensures stops { IfErr result (λ fault. StopsHere fault text.now at self.new) }
        ensures err { OnErr result (self.new ≡ self.old) }
    {
        let place = at as u32;
        let Some(reading) = read_change(&text[at..]) else {
            return Err(FoldFault::Spelling { at: place });
        };
        match self.make(alloc, &reading.change) {
            Ok(()) => Ok(at + reading.width),
            Err(ApplyFault::Unfit) => Err(FoldFault::Unfit { at: place }),
            Err(ApplyFault::NoMemory) => Err(FoldFault::NoMemory),
        }
    }

    /// Makes the changes that a text of less than 2^32 octets spells, in order. After an error those
    /// before its place are made.
    pub fn fold(&mut self, alloc: Global, text: &[u8]) -> Result<(), FoldFault>
        requires { length text.now < 2 ^ 32 }
        ensures ok { OnOk result (fold_entry self.old.directory text.now ≡ Some self.new.directory) }
        ensures stops { IfErr result (λ fault. Stops fault text.now self.old self.new) }
        ensures unlawful { IfErr result (λ fault. (fault ≢ FoldFault.NoMemory)
            → fold_entry self.old.directory text.now ≡ None) }
    {
        let mut at = 0;
        while at < text.len() {
            at = self.fold_one(alloc, text, at)?;
        }
        Ok(())
    }
}
