// A change that moves no record: it is made in memory once it is durable.
ghost use Rattle.std.specs.Prelude.{◌≡◌, ◌+◌, ◌≤◌, length, true, IfErr, OnErr, OnOk, is_ok};
ghost use Rattle.board.specs.Counts.{Rose};
ghost use Rattle.board.specs.Meaning.{TellsFlash};
ghost use Rattle.board.specs.Moments.{LeavesOnly};
ghost use Rattle.board.specs.Touches.{Touches};
ghost use Rattle.commit_gate.specs.Entries.{payload_pages};
ghost use Rattle.image_table.specs.Standing.{HoldsEitherTable};
ghost use Rattle.meta_journal.specs.Standing.{StandsFor as JournalStandsFor};
ghost use Rattle.pst_model.specs.Table.{Table};
ghost use Rattle.store_directory.specs.Entries.{CanBeWritten, FitsChange, change_octets};
ghost use Rattle.store_directory.specs.Kept.{IsChange, change_of};
ghost use Rattle.vault.specs.Changing.{Becomes, CanBeEntered, IsAfterEntry, NeedsNone, RoomAfter, if_short, journal_pages};
ghost use Rattle.vault.specs.Memory.{IsSound};
ghost use Rattle.vault.specs.Standing.{StandsFor};

use crate::changing::save;
use crate::fault::VaultFault;
use crate::vault::Vault;
use board::Board;
use store_directory::Change;

impl Vault {
    /// Enters a change into the journal, and then makes it. It can be made, moves no record and takes
    /// no memory. It is one call of `save`, and answers no fault but `Flash`: then the vault is closed.
    pub(crate) fn enter<B: Board>(
        &mut self,
        board: &mut B,
        change: &Change<'_>,
    ) -> Result<(), VaultFault>
        requires is_open { self.old.is_open ≡ true }
        requires blocks { self.old.blocks ≡ (B.means.device board.old).blocks }
        requires journal { TellsFlash B.means board.old
            → JournalStandsFor self.old.journal (B.means.flash board.old) }
        requires can_be_written { CanBeWritten (change_of change.now) }
        requires fits { FitsChange (change_of change.now) }
        requires is_change { IsChange (change_of change.now) }
        requires shortest { 1 ≤ length (change_octets (change_of change.now)) }
        requires longest { length (change_octets (change_of change.now)) ≤ 5116 }
        requires can_be_entered { CanBeEntered self.old.directory.directory (change_of change.now) }
        requires memory { NeedsNone (change_of change.now) self.old.directory.stores }

        ensures any_moment { TellsFlash B.means board.old → (table next : Table)
            → StandsFor self.old (B.means.flash board.old) table
            → Becomes self.old (change_of change.now) (B.means.flash board.old) next
            → LeavesOnly B.means board.old board.new
            (HoldsEitherTable self.old.blocks table next) }
        ensures stands { OnOk result (TellsFlash B.means board.old → (table next : Table)
            → StandsFor self.old (B.means.flash board.old) table
            → Becomes self.old (change_of change.now) (B.means.flash board.old) next
            → StandsFor self.new (B.means.flash board.new) next) }
        ensures after { IsAfterEntry self.old self.new (change_of change.now) result }
        ensures sound { OnOk result (IsSound self.new) }
        ensures journal { OnOk result (TellsFlash B.means board.old
            → JournalStandsFor self.new.journal (B.means.flash board.new)) }
        ensures room { OnOk result
            (RoomAfter (1 + payload_pages (length (change_octets (change_of change.now))))
            self.old.journal.room self.new.journal.room) }
        ensures touches { Touches B.means journal_pages
            (if_short self.old.journal.room 85
            + (1 + payload_pages (length (change_octets (change_of change.now)))))
            (if_short self.old.journal.room 7) (if_short self.old.journal.room 13 + 2)
            board.old board.new }
        ensures fault { IfErr result (λ fault. fault ≡ VaultFault.Flash) }
        ensures no_fault { OnOk result
            ((B.means.counts board.new).flash_faults ≡ (B.means.counts board.old).flash_faults) }
        ensures cause { OnErr result (Rose (B.means.counts board.old).flash_faults
            (B.means.counts board.new).flash_faults) }
    {
        let wear = self.pool.wear();
        match save(
            board,
            change,
            &self.directory,
            wear,
            &mut self.buffer,
            &mut self.journal,
        ) {
            Ok(()) => {
                let _ = self.directory.apply(self.alloc, change);
                // the number of stores is not used: with it comes what the directory keeps
                let _ = self.directory.len();
                Ok(())
            }
            Err(_) => {
                self.is_open = false;
                Err(VaultFault::Flash)
            }
        }
    }
}
