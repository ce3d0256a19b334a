// Room in the journal, before a change is begun.
ghost use Rattle.std.specs.Prelude.{◌≡◌, ◌≤◌, true, IfErr, OnErr, OnOk};
ghost use Rattle.board.specs.Counts.{Rose};
ghost use Rattle.board.specs.Meaning.{TellsFlash};
ghost use Rattle.board.specs.Moments.{LeavesOnly};
ghost use Rattle.board.specs.Touches.{Touches};
ghost use Rattle.image_table.specs.Standing.{HoldsTable};
ghost use Rattle.meta_journal.specs.Standing.{StandsFor as JournalStandsFor};
ghost use Rattle.pst_model.specs.Table.{Table};
ghost use Rattle.vault.specs.Changing.{RoomAfter, if_short, journal_pages};
ghost use Rattle.vault.specs.Memory.{IsSound};
ghost use Rattle.vault.specs.Putting.{IsAfterRoom};
ghost use Rattle.vault.specs.Standing.{StandsFor};

use crate::changing::make_room;
use crate::fault::VaultFault;
use crate::vault::Vault;
use board::Board;

impl Vault {
    /// Makes room in the journal for the longest entry, if there is less. The table stays as it is.
    /// `Flash`: a call of the flash failed, and the vault is closed. It answers no other fault.
    pub(crate) fn make_journal_room<B: Board>(&mut self, board: &mut B) -> Result<(), VaultFault>
        requires is_open { self.old.is_open ≡ true }
        requires blocks { self.old.blocks ≡ (B.means.device board.old).blocks }
        requires journal { TellsFlash B.means board.old
            → JournalStandsFor self.old.journal (B.means.flash board.old) }

        ensures any_moment { TellsFlash B.means board.old → (table : Table)
            → StandsFor self.old (B.means.flash board.old) table
            → LeavesOnly B.means board.old board.new (HoldsTable self.old.blocks table) }
        ensures stands { OnOk result (TellsFlash B.means board.old → (table : Table)
            → StandsFor self.old (B.means.flash board.old) table
            → StandsFor self.new (B.means.flash board.new) table) }
        ensures room { OnOk result (21 ≤ self.new.journal.room) }
        ensures room_after { OnOk result
            (RoomAfter 0 self.old.journal.room self.new.journal.room) }
        ensures after { IsAfterRoom self.old self.new result }
        ensures sound { OnOk result (IsSound self.new) }
        ensures touches { Touches B.means journal_pages (if_short self.old.journal.room 85)
            (if_short self.old.journal.room 7) (if_short self.old.journal.room 13)
            board.old board.new }
        ensures fault { IfErr result (λ fault. fault ≡ VaultFault.Flash) }
        ensures no_fault { OnOk result
            ((B.means.counts board.new).flash_faults ≡ (B.means.counts board.old).flash_faults) }
        ensures cause { OnErr result (Rose (B.means.counts board.old).flash_faults
            (B.means.counts board.new).flash_faults) }
    {
        let wear = self.pool.wear();
        match make_room(
            board,
            &self.directory,
            wear,
            &mut self.buffer,
            &mut self.journal,
        ) {
            Ok(()) => Ok(()),
            Err(_) => {
                self.is_open = false;
                Err(VaultFault::Flash)
            }
        }
    }
}
