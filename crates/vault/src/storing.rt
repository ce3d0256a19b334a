// A packet that arrives is put into each store that takes it.
//
// Order: the journal gets room first, so that the checkpoint is the directory from before. Then the
// clock rises, the packet is offered to one store after another, in memory and in pages that no record
// of the table lies in, and the text of one entry is made of all changes. That entry is added last, so
// a power loss leaves all of the arrival or nothing.
ghost use Rattle.std.specs.Prelude.{◌≡◌, ◌<◌, ◌≤◌, ◌==◌, ◌^◌, ℕ, [], false, true, length, max, IfErr, OnErr, OnOk, Some};
ghost use Rattle.board.specs.Counts.{Rose};
ghost use Rattle.board.specs.Meaning.{TellsFlash, TellsLink};
ghost use Rattle.board.specs.Moments.{LeavesOnly, SendsNothing};
ghost use Rattle.board.specs.Touches.{Touches};
ghost use Rattle.image_table.specs.Standing.{HoldsEitherTable};
ghost use Rattle.image_table.specs.Table.{table_by};
ghost use Rattle.meta_journal.specs.Standing.{StandsFor as JournalStandsFor};
ghost use Rattle.pst_model.specs.Arrivals.{arrive};
ghost use Rattle.pst_model.specs.Table.{Stored, Table};
ghost use Rattle.space_packet.specs.Packet.{apid_of};
ghost use Rattle.space_packet.specs.View.{octets_of};
ghost use Rattle.store_put.specs.Recording.{stored_by};
ghost use Rattle.vault.specs.Changing.{RoomAfter, journal_pages};
ghost use Rattle.vault.specs.Memory.{InMemory, IsSound};
ghost use Rattle.vault.specs.Putting.{BeginsPut, HasPutAll, IsAfterCommit, IsAfterPut, IsPut, PutsWithin};
ghost use Rattle.vault.specs.Standing.{StandsFor};
ghost use Rattle.vault.specs.Storing.{AreFreshFor, HasPut, IsFreshened, IsPutting, OffersQuietly};

use crate::changing::add_entry;
use crate::fault::VaultFault;
use crate::vault::Vault;
use board::{Board, Failed};
use space_packet::PacketView;
use store_directory::Change;
use store_put::{Arrival, EntryText, make_change, refusals_of, settle};

/// Reports are counted modulo this.
const REPORTS: u16 = 16_384;

impl Vault {
    // Begins with a packet: the clock rises to its storage time, which is returned, and the reports of
    // its refusals are counted. The vault is not open from now on.
    fn begin_put(&mut self, moment: u64, packet: &PacketView<'_>, text: &mut EntryText) -> u64
        requires is_open { self.old.is_open ≡ true }
        requires moment { moment < 2 ^ 48 }
        requires empty { text.old ≡ [] }
        ensures time { result ≡ max self.old.directory.now moment }
        ensures begins { BeginsPut self.old self.new
            (record { time = result; octets = octets_of packet.now }) text.new }
    {
        let refused = refusals_of(&self.directory, &self.indexes, packet);
        let reports = (self.directory.reports() + refused.len() as u16) % REPORTS;
        let now = self.directory.now().max(moment);
        // the erase counts are not used: with them comes what the pool keeps
        let _ = self.pool.wear();
        make_change(
            self.alloc,
            &mut self.directory,
            &Change::Clock { now, reports },
            text,
        );
        self.is_open = false;
        now
    }

    // Offers the arriving packet to one store after another.
    fn offer_to_all<B: Board>(
        &mut self,
        board: &mut B,
        arrival: &Arrival<'_>,
        text: &mut EntryText,
    ) -> Result<(), Failed>
        requires putting { IsPutting B.means board.old self.old (stored_by arrival.now) 0 text.old }

        ensures goes { OnOk result ((start : B) (first : InMemory)
            → HasPut B.means start board.old first self.old (stored_by arrival.now) 0 text.old
            → HasPutAll B.means start board.new first self.new (stored_by arrival.now) text.new) }
        ensures fails { OnErr result ((start : B) (first : InMemory)
            → HasPut B.means start board.old first self.old (stored_by arrival.now) 0 text.old
            → OffersQuietly B.means start board.new first (octets_of arrival.now.packet)
            (length first.directory.stores)) }
        ensures closed { self.new.is_open ≡ false }
        ensures blocks { self.new.blocks ≡ self.old.blocks }
        ensures held { self.new.held ≡ self.old.held }
        ensures no_fault { OnOk result
            ((B.means.counts board.new).flash_faults ≡ (B.means.counts board.old).flash_faults) }
        ensures cause { OnErr result (Rose (B.means.counts board.old).flash_faults
            (B.means.counts board.new).flash_faults) }
    {
        for at in 0..self.directory.len() {
            self.offer_to(board, at, arrival, text)?;
        }
        Ok(())
    }

    // Adds the entry, gives back the blocks that left the stores, and opens the vault again.
    fn commit_put<B: Board>(&mut self, board: &mut B, text: &EntryText) -> Result<(), VaultFault>
        requires put { IsPut B.means board.old self.old text.now }
        requires room { 21 ≤ self.old.journal.room }
        requires journal { TellsFlash B.means board.old
            → JournalStandsFor self.old.journal (B.means.flash board.old) }

        ensures any_moment { TellsFlash B.means board.old → (start : B) (first : InMemory)
            (stored : Stored) → HasPutAll B.means start board.old first self.old stored text.now
            → (table next : Table) → StandsFor first (B.means.flash start) table
            → table_by self.old.blocks (B.means.flash board.old).content
            self.old.directory.directory ≡ Some next
            → LeavesOnly B.means board.old board.new
            (HoldsEitherTable self.old.blocks table next) }
        ensures stands { OnOk result (TellsFlash B.means board.old → (start : B) (first : InMemory)
            (stored : Stored) → HasPutAll B.means start board.old first self.old stored text.now
            → (table next : Table) → StandsFor first (B.means.flash start) table
            → table_by self.old.blocks (B.means.flash board.old).content
            self.old.directory.directory ≡ Some next
            → StandsFor self.new (B.means.flash board.new) next) }
        ensures after { IsAfterCommit self.old self.new result }
        ensures sound { OnOk result (IsSound self.new) }
        ensures journal { OnOk result (TellsFlash B.means board.old
            → JournalStandsFor self.new.journal (B.means.flash board.new)) }
        ensures room { OnOk result
            (RoomAfter 7 self.old.journal.room self.new.journal.room) }
        ensures touches { Touches B.means journal_pages 7 0 2 board.old board.new }
        ensures fault { IfErr result (λ fault. fault ≡ VaultFault.Flash) }
        ensures no_fault { OnOk result
            ((B.means.counts board.new).flash_faults ≡ (B.means.counts board.old).flash_faults) }
        ensures cause { OnErr result (Rose (B.means.counts board.old).flash_faults
            (B.means.counts board.new).flash_faults) }
    {
        // the erase counts are not used: with them comes what the pool keeps
        let _ = self.pool.wear();
        match add_entry(board, text.octets(), &mut self.journal) {
            Ok(()) => {
                settle(&self.directory, &mut self.pool);
                self.is_open = true;
                Ok(())
            }
            Err(_) => Err(VaultFault::Flash),
        }
    }

    /// Puts a packet that is not idle into each store that takes it, none of which has to be renewed.
    /// `Flash`: a call of the flash failed, and the table is the one from before or the one behind the
    /// arrival. The vault is closed then. It answers no other fault.
    pub(crate) fn put_packet<B: Board>(
        &mut self,
        board: &mut B,
        moment: u64,
        packet: PacketView<'_>,
    ) -> Result<(), VaultFault>
        requires is_open { self.old.is_open ≡ true }
        requires blocks { self.old.blocks ≡ (B.means.device board.old).blocks }
        requires moment { moment < 2 ^ 48 }
        requires busy { (apid_of (octets_of packet) == 2047) ≡ false }
        requires fresh { AreFreshFor (octets_of packet) self.old }
        requires flash { TellsFlash B.means board.old
            → (table : Table) × StandsFor self.old (B.means.flash board.old) table }

        // At each moment, also if the call failed, each image holds the table from before or the one
        // behind the arrival.
        ensures any_moment { TellsFlash B.means board.old → (table : Table) (number : ℕ)
            → StandsFor self.old (B.means.flash board.old) table
            → LeavesOnly B.means board.old board.new (HoldsEitherTable self.old.blocks table
            (arrive number moment (octets_of packet.entry) table).table) }
        ensures stands { OnOk result (TellsFlash B.means board.old → (table : Table) (number : ℕ)
            → StandsFor self.old (B.means.flash board.old) table
            → StandsFor self.new (B.means.flash board.new)
            (arrive number moment (octets_of packet.entry) table).table) }
        ensures after { IsAfterPut self.old self.new result }
        ensures sound { OnOk result (IsSound self.new) }
        ensures journal { OnOk result (TellsFlash B.means board.old
            → JournalStandsFor self.new.journal (B.means.flash board.new)) }
        ensures fresh { OnOk result (IsFreshened (octets_of packet.entry)
            (length self.old.directory.stores) self.old self.new.lasts) }
        ensures quiet { TellsLink B.means board.old → SendsNothing B.means board.old board.new }
        ensures same { B.means.device board.new ≡ B.means.device board.old }
        ensures work { PutsWithin B.means board.old board.new self.old (octets_of packet.entry) }
        ensures room { OnOk result
            (RoomAfter 7 self.old.journal.room self.new.journal.room) }
        ensures fault { IfErr result (λ fault. fault ≡ VaultFault.Flash) }
        ensures no_fault { OnOk result
            ((B.means.counts board.new).flash_faults ≡ (B.means.counts board.old).flash_faults) }
        ensures cause { OnErr result (Rose (B.means.counts board.old).flash_faults
            (B.means.counts board.new).flash_faults) }
    {
        self.make_journal_room(board)?;
        let mut text = EntryText::new();
        let time = self.begin_put(moment, &packet, &mut text);
        let arrival = Arrival { time, packet };
        match self.offer_to_all(board, &arrival, &mut text) {
            Ok(()) => self.commit_put(board, &text),
            Err(_) => Err(VaultFault::Flash),
        }
    }
}
