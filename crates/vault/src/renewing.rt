// Stale blocks are renewed before a packet is put into them.
//
// A store's last block is stale if it was written before this opening: its other pages are not known
// to be clean, so no record may go behind its last one. Its live records are copied to a free block,
// under the same numbers, and an entry names that one as the store's last block.
//
// Order: the journal gets room for an entry, the records are copied, the entry is added; only then is
// the old block free. So each image holds the same table.
ghost use Rattle.std.specs.Prelude.{◌≡◌, ◌<◌, ◌≤◌, ℕ, List, Ok, length, true, IfErr, IsFalse, IsTrue, OnOk};
ghost use Rattle.board.specs.Counts.{Rose};
ghost use Rattle.board.specs.Meaning.{TellsFlash, TellsLink};
ghost use Rattle.board.specs.Moments.{LeavesOnly, SendsNothing};
ghost use Rattle.image_table.specs.Standing.{HoldsTable};
ghost use Rattle.meta_journal.specs.Standing.{StandsFor as JournalStandsFor};
ghost use Rattle.pst_model.specs.Table.{Table};
ghost use Rattle.space_packet.specs.View.{octets_of};
ghost use Rattle.store_policy.specs.Shown.{IsTableShown};
ghost use Rattle.store_policy.specs.declared.view.View.{View as Shown};
ghost use Rattle.vault.specs.Fetching.{OnFlash, UnlessFlash};
ghost use Rattle.vault.specs.Memory.{IsSound, IsViewOf};
ghost use Rattle.vault.specs.Renewing.{AtPlace, DiffersUntold, IsAfterRenewal, IsLinked, LeavesLink, NeedsRenewal, Renews, RenewsAt};
ghost use Rattle.vault.specs.Standing.{StandsFor};
ghost use Rattle.vault.specs.Storing.{AreFreshFor, IsFreshFor};

use crate::changing::add;
use crate::copying::copy_last;
use crate::fault::VaultFault;
use crate::fetching::fault_of;
use crate::last_block::LastBlock;
use crate::vault::Vault;
use board::Board;
use space_packet::PacketView;
use store_directory::Change;
use store_put::{Plan, plan_of};
use time_index::Index;

/// A last block that uses this many pages has no room for each packet any more.
const FULL: u32 = 240;

impl Vault {
    // Copies the last block of the store at a place to a free one, and enters that one as its last
    // block. The journal has room for the entry.
    fn swap_last<B: Board>(&mut self, board: &mut B, at: u32) -> Result<(), VaultFault>
        requires is_open { self.old.is_open ≡ true }
        requires blocks { self.old.blocks ≡ (B.means.device board.old).blocks }
        requires flash { TellsFlash B.means board.old
            → (table : Table) × StandsFor self.old (B.means.flash board.old) table }
        requires within { at < length self.old.directory.stores }
        requires linked { AtPlace self.old at IsLinked }
        requires room { 21 ≤ self.old.journal.room }

        ensures renews { Renews B.means board.old board.new self.old self.new result }
        ensures place { OnOk result (RenewsAt self.old self.new at) }
    {
        // the erase counts are not used: with them comes what the pool keeps
        let _ = self.pool.wear();
        let row = *self.directory.row(at);
        let copied = copy_last(
            board,
            &row,
            self.directory.links(at),
            &mut self.indexes[at as usize],
            &mut self.pool,
            &mut self.buffer,
        );
        let copy = match copied {
            Ok(copy) => copy,
            Err(fault) => {
                self.is_open = false;
                return Err(fault_of(fault));
            }
        };
        let change = Change::Swap {
            store: row.identifier,
            block: copy.block as u16,
            first: copy.first,
        };
        match add(board, &change, &mut self.buffer, &mut self.journal) {
            Ok(()) => {
                let _ = self.directory.apply(self.alloc, &change);
                self.pool.give(copy.old);
                self.lasts[at as usize] = LastBlock {
                    used: copy.used,
                    stale: false,
                };
                Ok(())
            }
            Err(_) => {
                self.is_open = false;
                Err(VaultFault::Flash)
            }
        }
    }

    // Renews the last block of the store at a place, which has one.
    fn renew<B: Board>(&mut self, board: &mut B, at: u32) -> Result<(), VaultFault>
        requires is_open { self.old.is_open ≡ true }
        requires blocks { self.old.blocks ≡ (B.means.device board.old).blocks }
        requires flash { TellsFlash B.means board.old
            → (table : Table) × StandsFor self.old (B.means.flash board.old) table }
        requires within { at < length self.old.directory.stores }
        requires linked { AtPlace self.old at IsLinked }

        ensures renews { Renews B.means board.old board.new self.old self.new result }
        ensures place { OnOk result (RenewsAt self.old self.new at) }
    {
        match self.make_journal_room(board) {
            Ok(()) => self.swap_last(board, at),
            Err(fault) => Err(fault),
        }
    }

    // Whether the store at a place takes a packet into its last block and does not know its other
    // pages to be clean.
    fn needs_renewal(&self, at: u32, packet: &PacketView<'_>) -> bool
        requires is_open { self.now.is_open ≡ true }
        requires within { at < length self.now.directory.stores }
        ensures needed { IsTrue result
            → AtPlace self.now at (NeedsRenewal (octets_of packet.now)) }
        ensures spared { IsFalse result
            → AtPlace self.now at (IsFreshFor (octets_of packet.now)) }
    {
        let lasts: &[LastBlock] = &self.lasts;
        let last = lasts[at as usize];
        if !last.stale || last.used >= FULL || self.directory.links(at).is_empty() {
            return false;
        }
        let indexes: &[Index] = &self.indexes;
        let plan = plan_of(
            self.directory.row(at),
            self.directory.patterns(at),
            &indexes[at as usize],
            packet,
        );
        matches!(plan, Plan::Takes(_))
    }

    /// Renews the last block of each store that takes a packet into it and whose other pages are not
    /// known to be clean. The table stays the same, and each image holds it at each moment.
    ///
    /// `Flash`: a call of the flash failed. `Mismatch`: what is found is not the record that was kept.
    /// The vault is closed after these.
    pub(crate) fn renew_for<B: Board>(
        &mut self,
        board: &mut B,
        packet: &PacketView<'_>,
    ) -> Result<(), VaultFault>
        requires is_open { self.old.is_open ≡ true }
        requires blocks { self.old.blocks ≡ (B.means.device board.old).blocks }
        requires flash { TellsFlash B.means board.old
            → (table : Table) × StandsFor self.old (B.means.flash board.old) table }

        ensures any_moment { TellsFlash B.means board.old → (table : Table)
            → StandsFor self.old (B.means.flash board.old) table
            → LeavesOnly B.means board.old board.new (HoldsTable self.old.blocks table) }
        ensures stands { OnOk result (TellsFlash B.means board.old → (table : Table)
            → StandsFor self.old (B.means.flash board.old) table
            → StandsFor self.new (B.means.flash board.new) table) }
        ensures fresh { OnOk result (AreFreshFor (octets_of packet.now) self.new) }
        ensures nothing { AreFreshFor (octets_of packet.now) self.old
            → (board.new ≡ board.old) × (self.new ≡ self.old) × (result ≡ Ok tt) }
        ensures shown { OnOk result ((table : Table) (view after : Shown)
            → IsViewOf view self.old → IsViewOf after self.new
            → IsTableShown table view → IsTableShown table after) }
        ensures after { IsAfterRenewal self.old self.new result }
        ensures sound { OnOk result (IsSound self.new) }
        ensures journal { OnOk result (TellsFlash B.means board.old
            → JournalStandsFor self.new.journal (B.means.flash board.new)) }
        ensures quiet { TellsLink B.means board.old → SendsNothing B.means board.old board.new }
        ensures link { LeavesLink (B.means.counts board.old) (B.means.counts board.new) }
        ensures same { B.means.device board.new ≡ B.means.device board.old }
        ensures mismatch { IfErr result (DiffersUntold (TellsFlash B.means board.old)) }
        ensures no_fault { UnlessFlash result
            ((B.means.counts board.new).flash_faults ≡ (B.means.counts board.old).flash_faults) }
        ensures cause { OnFlash result (Rose (B.means.counts board.old).flash_faults
            (B.means.counts board.new).flash_faults) }
    {
        for at in 0..self.directory.len() {
            if self.needs_renewal(at, packet) {
                self.renew(board, at)?;
            }
        }
        Ok(())
    }
}
