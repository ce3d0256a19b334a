// A report is counted.
ghost use Rattle.std.specs.Prelude.{◌≡◌, ◌+◌, ℕ, List, true, Ok, IfErr, IfOk, OnErr, OnOk, is_ok};
ghost use Rattle.board.specs.Counts.{Rose};
ghost use Rattle.board.specs.Meaning.{TellsFlash};
ghost use Rattle.board.specs.Moments.{LeavesOnly};
ghost use Rattle.board.specs.Touches.{Touches};
ghost use Rattle.image_table.specs.Standing.{HoldsEitherTable, HoldsTable};
ghost use Rattle.meta_journal.specs.Standing.{StandsFor as JournalStandsFor};
ghost use Rattle.pst_model.specs.Table.{Table};
ghost use Rattle.vault.specs.Changing.{IsAfterReport, if_short, journal_pages, with_report};
ghost use Rattle.vault.specs.Memory.{IsSound};
ghost use Rattle.vault.specs.Standing.{StandsFor};

use crate::fault::VaultFault;
use crate::vault::Vault;
use board::Board;
use store_directory::Change;

/// Reports are counted modulo this.
const REPORTS: u16 = 16_384;

impl Vault {
    /// Counts a report, modulo 16,384, and returns the count from before it, which is the report's
    /// sequence count. From `Ok` on the new count survives a power loss. It takes no memory and reads
    /// nothing. If less than 21 pages of the journal are room, the journal's other half counts
    /// afterwards.
    ///
    /// `Flash`: a call of the flash failed, and the count is the one from before or the new one. The
    /// vault is closed then. It answers no other fault.
    pub fn report<B: Board>(&mut self, board: &mut B) -> Result<u16, VaultFault>
        requires is_open { self.old.is_open ≡ true }
        requires blocks { self.old.blocks ≡ (B.means.device board.old).blocks }
        requires journal { TellsFlash B.means board.old
            → JournalStandsFor self.old.journal (B.means.flash board.old) }

        // If the flash is told, and the vault stands for a table: at each moment, also if the call
        // failed, each image holds that table or the one with the report counted. At `Ok` the vault
        // stands for the latter, and each image holds it.
        ensures any_moment { TellsFlash B.means board.old → (table : Table)
            → StandsFor self.old (B.means.flash board.old) table
            → LeavesOnly B.means board.old board.new
            (HoldsEitherTable self.old.blocks table (with_report table)) }
        ensures stands { OnOk result (TellsFlash B.means board.old → (table : Table)
            → StandsFor self.old (B.means.flash board.old) table
            → StandsFor self.new (B.means.flash board.new) (with_report table)) }
        ensures holds { OnOk result (TellsFlash B.means board.old → (table : Table)
            → StandsFor self.old (B.means.flash board.old) table → (image : ℕ → List ℕ)
            → B.means.images board.new (B.means.moment board.new) image
            → HoldsTable self.old.blocks (with_report table) image) }

        // What holds on each board.
        ensures count { IfOk result (λ count. count ≡ self.old.directory.reports) }
        ensures after { IsAfterReport self.old self.new result }
        ensures is_open { self.new.is_open ≡ is_ok result }
        ensures blocks { self.new.blocks ≡ self.old.blocks }
        ensures sound { OnOk result (IsSound self.new) }
        ensures journal { OnOk result (TellsFlash B.means board.old
            → JournalStandsFor self.new.journal (B.means.flash board.new)) }
        ensures touches { Touches B.means journal_pages
            (if_short self.old.journal.room 85 + 2) (if_short self.old.journal.room 7)
            (if_short self.old.journal.room 13 + 2) board.old board.new }
        ensures fault { IfErr result (λ fault. fault ≡ VaultFault.Flash) }
        ensures no_fault { OnOk result
            ((B.means.counts board.new).flash_faults ≡ (B.means.counts board.old).flash_faults) }
        ensures cause { OnErr result (Rose (B.means.counts board.old).flash_faults
            (B.means.counts board.new).flash_faults) }
    {
        let reports = self.directory.reports();
        let change = Change::Clock {
            now: self.directory.now(),
            reports: (reports + 1) % REPORTS,
        };
        match self.enter(board, &change) {
            Ok(()) => Ok(reports),
            Err(fault) => Err(fault),
        }
    }

    /// Commits what is pending. Nothing is, since each change is committed at once: it calls nothing,
    /// and always answers `Ok`.
    pub fn flush<B: Board>(&mut self, board: &mut B) -> Result<(), VaultFault>
        requires is_open { self.old.is_open ≡ true }
        ensures ok { result ≡ Ok tt }
        ensures same { self.new ≡ self.old }
        ensures board { board.new ≡ board.old }
    {
        Ok(())
    }

    /// Uses a time in which no command waits. Nothing is done in it yet: it calls nothing, and always
    /// answers `Ok`.
    pub fn idle<B: Board>(&mut self, board: &mut B) -> Result<(), VaultFault>
        requires is_open { self.old.is_open ≡ true }
        ensures ok { result ≡ Ok tt }
        ensures same { self.new ≡ self.old }
        ensures board { board.new ≡ board.old }
    {
        Ok(())
    }
}
