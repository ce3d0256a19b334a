// A commit adds an entry to the half that counts.
ghost use Rattle.std.specs.Prelude.{◌≡◌, ◌≤◌, ◌+◌, ◌*◌, Some, length, OnOk, OnErr};
ghost use Rattle.board.specs.Counts.{Rose};
ghost use Rattle.board.specs.Meaning.{TellsFlash};
ghost use Rattle.board.specs.Moments.{LeavesInTurn, LeavesOnly};
ghost use Rattle.board.specs.Touches.{Touches};
ghost use Rattle.commit_gate.specs.Commits.{entry_pages, with_entry};
ghost use Rattle.commit_gate.specs.Entries.{payload_pages};
ghost use Rattle.store_directory.specs.Directory.{Directory};
ghost use Rattle.store_directory.specs.Folds.{fold_entry};
ghost use Rattle.meta_journal.specs.Halves.{half_base, half_of};
ghost use Rattle.meta_journal.specs.Journals.{FirmJournal, Holds, HoldsBefore, HoldsEither};
ghost use Rattle.meta_journal.specs.Journals.{IsJournal};
ghost use Rattle.meta_journal.specs.Standing.{IsWritten, StandsFor, room_from, with_less_room};

use crate::half::half_of;
use crate::journal::Journal;
use board::{Board, Failed};
use commit_gate::append;

impl Journal {
    /// Adds an entry of 1 to 5,116 octets to the half that counts. The room is at least 21 pages,
    /// and falls by the entry's pages and one. From `Ok` on the entry survives a power loss, and so
    /// does each page that was programmed before. `Failed`: a call of the board failed; the entry is
    /// then there whole or not at all, and the room is 0.
    pub fn commit<B: Board>(&mut self, board: &mut B, entry: &[u8]) -> Result<(), Failed>
        requires room { 21 ≤ self.old.room }
        requires shortest { 1 ≤ length entry.now }
        requires longest { length entry.now ≤ 5116 }
        requires stands { TellsFlash B.means board.old
            → StandsFor self.old (B.means.flash board.old) }

        ensures kept { OnOk result (self.new ≡ with_less_room (length entry.now) self.old) }
        ensures spent { OnErr result (self.new ≡ record self.old { room = 0 }) }
        ensures stands { TellsFlash B.means board.old
            → StandsFor self.new (B.means.flash board.new) }
        ensures flash { OnOk result (TellsFlash B.means board.old → B.means.flash board.new
            ≡ with_entry (half_base (half_of self.old.root)) (room_from self.old) entry.now
            (B.means.flash board.old)) }
        ensures seen { OnOk result (TellsFlash B.means board.old → B.means.images
            board.new (B.means.moment board.new) (B.means.flash board.new).content) }

        // At `Ok` the journal is that of the directory with the entry, and nothing is loose.
        ensures journal { OnOk result (TellsFlash B.means board.old → (before after : Directory)
            → Holds (B.means.device board.old).blocks before (B.means.flash board.old).content
            → fold_entry before entry.now ≡ Some after
            → IsJournal (B.means.device board.old).blocks self.new.root after
            (room_from self.new) (B.means.flash board.new)) }

        // Also if it failed, each image holds the directory without the entry, or the one with it,
        // and then each other page is as it was written before.
        ensures any_moment { TellsFlash B.means board.old → FirmJournal (B.means.flash board.old)
            → (before after : Directory)
            → Holds (B.means.device board.old).blocks before (B.means.flash board.old).content
            → fold_entry before entry.now ≡ Some after
            → LeavesOnly B.means board.old board.new
            (HoldsEither (B.means.device board.old).blocks (entry_pages
            (half_base (half_of self.old.root)) (room_from self.old) entry.now)
            (B.means.flash board.old) before after) }

        // Up to some moment each image holds the one without it. Behind that moment each other page
        // is as it was written, also one that no barrier had made firm.
        ensures in_turn { TellsFlash B.means board.old → FirmJournal (B.means.flash board.old)
            → (before : Directory)
            → Holds (B.means.device board.old).blocks before (B.means.flash board.old).content
            → LeavesInTurn B.means board.old board.new
            (HoldsBefore (B.means.device board.old).blocks (entry_pages
            (half_base (half_of self.old.root)) (room_from self.old) entry.now)
            (B.means.flash board.old) before)
            (IsWritten (B.means.device board.old).blocks (entry_pages
            (half_base (half_of self.old.root)) (room_from self.old) entry.now)
            (B.means.flash board.old)) }

        ensures touches { Touches B.means
            (entry_pages (half_base (half_of self.old.root)) (room_from self.old) entry.now)
            (1 + payload_pages (length entry.now)) 0 2 board.old board.new }
        ensures no_fault { OnOk result
            ((B.means.counts board.new).flash_faults ≡ (B.means.counts board.old).flash_faults) }
        ensures cause { OnErr result
            (Rose (B.means.counts board.old).flash_faults (B.means.counts board.new).flash_faults) }
    {
        let at = 512 - self.room;
        self.room = 0;
        let next = append(board, half_of(self.root), at, entry)?;
        self.room = 512 - next;
        Ok(())
    }
}
