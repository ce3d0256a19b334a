// A request is carried out.
//
// Order: the journal gets room first, so that the checkpoint is the directory from before the
// request. Then the instructions are carried out in memory. Each change is written behind the others
// into the text of one entry, which ends with the count of the reports and is committed at once. So
// a power loss leaves all of the request or nothing. The blocks that left the stores are given back
// last: until the entry counts, a power loss leaves a table that is read from them.

ghost use Rattle.std.specs.Prelude.{◌≡◌, ◌+◌, ◌<◌, ℕ, List, true, map, IfErr, IfOk, OnErr, OnOk, is_ok};
ghost use Rattle.board.specs.Counts.{Rose};
ghost use Rattle.board.specs.Meaning.{TellsFlash};
ghost use Rattle.board.specs.Moments.{LeavesOnly};
ghost use Rattle.board.specs.Touches.{Touches};
ghost use Rattle.image_table.specs.Standing.{HoldsEitherTable, HoldsTable};
ghost use Rattle.meta_journal.specs.Standing.{StandsFor as JournalStandsFor};
ghost use Rattle.pst_model.specs.Answers.{carry_out};
ghost use Rattle.pst_model.specs.Table.{Table};
ghost use Rattle.request_laws.specs.Counting.{CanBeCarried, table_behind};
ghost use Rattle.store_policy.specs.Shown.{IsTableShown};
ghost use Rattle.store_policy.specs.declared.view.View.{View as Shown};
ghost use Rattle.vault.specs.Changing.{if_short, journal_pages};
ghost use Rattle.vault.specs.Memory.{IsSound, IsViewOf};
ghost use Rattle.vault.specs.Requests.{IsAfterRequest, failure_of};
ghost use Rattle.vault.specs.Standing.{StandsFor};

use crate::changing::{add_entry, make_room};
use crate::fault::ChangeFault;
use crate::preparing::prepare;
use crate::vault::Vault;
use arrayvec::ArrayVec;
use board::Board;
use control_defs::Instruction;
use std::alloc::Global;
use store_policy::Refusal;
use store_put::settle;

/// What a request did.
#[derive(Drop)]
pub struct ChangeOutcome {
    /// Of each instruction that failed its number, from 1, and why.
    pub refused: ArrayVec<(u8, Refusal), 32>,
    /// The number of reports from before the request, modulo 16,384: the sequence count of its
    /// first report.
    pub first_report: u16,
}

impl Vault {
    /// Carries out a request: instructions that one request can ask for, 1 to 32 of one kind that is
    /// carried out, with acknowledgement flags below 16 (ECSS-E-ST-70-41C, 6.14 and 6.15). An
    /// instruction that fails has no effect; the ones before it stay executed. The reports that
    /// answer the request are counted with it. From `Ok` on all of it survives a power loss. It
    /// reads nothing. If less than 21 pages of the journal are room, the journal's other half counts
    /// afterwards.
    ///
    /// `Flash`: a call of the flash failed, and the table is the one from before or the one after
    /// the request. The vault is closed then. It answers no other fault: the kinds that are carried
    /// out take no memory from `alloc`, and read no record.
    pub fn change<B: Board>(
        &mut self,
        alloc: Global,
        board: &mut B,
        instructions: &[Instruction],
        acks: u8,
    ) -> Result<ChangeOutcome, ChangeFault>
        requires is_open { self.old.is_open ≡ true }
        requires blocks { self.old.blocks ≡ (B.means.device board.old).blocks }
        requires journal { TellsFlash B.means board.old
            → JournalStandsFor self.old.journal (B.means.flash board.old) }
        requires carried { CanBeCarried instructions.now }
        requires acks { acks < 16 }

        // If the flash is told, and the vault stands for a table: at each moment, also if the call
        // failed, each image holds that table or the one behind the request. At `Ok` the vault
        // stands for the latter, and each image holds it.
        ensures any_moment { TellsFlash B.means board.old → (table : Table)
            → StandsFor self.old (B.means.flash board.old) table
            → LeavesOnly B.means board.old board.new (HoldsEitherTable self.old.blocks table
            (table_behind self.old.blocks acks instructions.now table)) }
        ensures stands { OnOk result (TellsFlash B.means board.old → (table : Table)
            → StandsFor self.old (B.means.flash board.old) table
            → StandsFor self.new (B.means.flash board.new)
            (table_behind self.old.blocks acks instructions.now table)) }
        ensures holds { OnOk result (TellsFlash B.means board.old → (table : Table)
            → StandsFor self.old (B.means.flash board.old) table → (image : ℕ → List ℕ)
            → B.means.images board.new (B.means.moment board.new) image
            → HoldsTable self.old.blocks
            (table_behind self.old.blocks acks instructions.now table) image) }

        // What holds on each board, for each table that is shown.
        ensures refused { IfOk result (λ outcome. (table : Table) (view : Shown)
            → IsViewOf view self.old → IsTableShown table view
            → map failure_of outcome.refused.items
            ≡ (carry_out self.old.blocks instructions.now table).failures) }
        ensures first_report { IfOk result
            (λ outcome. outcome.first_report ≡ self.old.directory.reports) }
        ensures shown { OnOk result ((table : Table) (view after : Shown)
            → IsViewOf view self.old → IsViewOf after self.new → IsTableShown table view
            → IsTableShown (table_behind self.old.blocks acks instructions.now table) after) }

        // What holds on each board.
        ensures after { IsAfterRequest self.old self.new result }
        ensures is_open { self.new.is_open ≡ is_ok result }
        ensures blocks { self.new.blocks ≡ self.old.blocks }
        ensures sound { OnOk result (IsSound self.new) }
        ensures journal { OnOk result (TellsFlash B.means board.old
            → JournalStandsFor self.new.journal (B.means.flash board.new)) }
        ensures touches { Touches B.means journal_pages
            (if_short self.old.journal.room 85 + 5) (if_short self.old.journal.room 7)
            (if_short self.old.journal.room 13 + 2) board.old board.new }
        ensures fault { IfErr result (λ fault. fault ≡ ChangeFault.Flash) }
        ensures no_fault { OnOk result
            ((B.means.counts board.new).flash_faults ≡ (B.means.counts board.old).flash_faults) }
        ensures cause { OnErr result (Rose (B.means.counts board.old).flash_faults
            (B.means.counts board.new).flash_faults) }
    {
        let first_report = self.directory.reports();
        let wear = self.pool.wear();
        match make_room(
            board,
            &self.directory,
            wear,
            &mut self.buffer,
            &mut self.journal,
        ) {
            Ok(()) => {}
            Err(_) => {
                self.is_open = false;
                return Err(ChangeFault::Flash);
            }
        }
        let carried = prepare(
            alloc,
            &mut self.directory,
            &mut self.indexes,
            &mut self.lasts,
            self.blocks,
            instructions,
            acks,
            &mut self.buffer,
        );
        let entry = &self.buffer[..carried.size as usize];
        match add_entry(board, entry, &mut self.journal) {
            Ok(()) => {
                settle(&self.directory, &mut self.pool);
                Ok(ChangeOutcome {
                    refused: carried.refused,
                    first_report,
                })
            }
            Err(_) => {
                self.is_open = false;
                Err(ChangeFault::Flash)
            }
        }
    }
}
