// One record of a store, read from the flash.
ghost use Rattle.std.specs.Prelude.{◌≡◌, ◌<◌, ◌≤◌, ◌^◌, true, Some, length, IfOk, IfErr, OnOk};
ghost use Rattle.std.specs.Borrow.{sem};
ghost use Rattle.board.specs.Counts.{Rose};
ghost use Rattle.board.specs.Meaning.{TellsFlash};
ghost use Rattle.board.specs.Reads.{ReadsOnly};
ghost use Rattle.chain_log.specs.Loaded.{IsMismatchAt, IsPlace};
ghost use Rattle.chain_log.specs.Loaded.{OnFlash as OnLoadFlash, UnlessFlash as UnlessLoadFlash};
ghost use Rattle.chain_log.specs.Pages.{block_octets};
ghost use Rattle.pst_model.specs.Table.{Table};
ghost use Rattle.record_view.specs.Records.{Meaning, record_at};
ghost use Rattle.record_view.specs.View.{meaning_of};
ghost use Rattle.space_packet.specs.Charge.{charge_of};
ghost use Rattle.space_packet.specs.Packet.{IsPacket};
ghost use Rattle.vault.specs.Fetching.{Answers, Holds, IsAfterFetch, IsPosition, IsRecordAt};
ghost use Rattle.vault.specs.Fetching.{KeepsRecord, OnFlash, TellsDifference, UnlessFlash};
ghost use Rattle.vault.specs.Fetching.{charge_at, vault_fault_of};
ghost use Rattle.vault.specs.Lending.{RestsFetched};
ghost use Rattle.vault.specs.Standing.{StandsFor};

use crate::fault::VaultFault;
use crate::held_record::HeldRecord;
use crate::vault::Vault;
use board::Board;
use chain_log::{LoadFault, Place, load_record};
use record_view::RecordView;
use time_index::Index;

// A fault of a record that was not loaded.
pub(crate) fn fault_of(fault: LoadFault) -> VaultFault
    ensures { result ≡ vault_fault_of fault }
{
    match fault {
        LoadFault::Flash => VaultFault::Flash,
        LoadFault::Mismatch {
            block,
            page,
            kept,
            found,
        } => VaultFault::Mismatch {
            block,
            page,
            kept,
            found,
        },
    }
}

// Loads a record by its place, and keeps it. After an error the record that was held stays.
fn load_into<B: Board>(
    board: &mut B,
    place: Place,
    number: u32,
    buf: &mut [u8],
    held: &mut HeldRecord,
) -> Result<(), LoadFault>
    requires place { IsPlace (B.means.device board.old).blocks place }
    requires room { 4352 ≤ length buf.old }

    ensures spelled { TellsFlash B.means board.old → (meaning : Meaning)
        → record_at (block_octets (B.means.flash board.old).content place.block)
        number place.page ≡ Some meaning
        → length meaning.packet ≡ place.length → KeepsRecord meaning result held.new }
    ensures packet { OnOk result (IsPacket held.new.packet) }
    ensures kept { OnOk result ((held.new.number ≡ number) × (length held.new.packet ≡ place.length)) }
    ensures mismatch { IfErr result (IsMismatchAt place) }
    ensures reads { ReadsOnly B.means (charge_of place.length) board.old board.new }
    ensures no_fault { UnlessLoadFlash result
        ((B.means.counts board.new).flash_faults ≡ (B.means.counts board.old).flash_faults) }
    ensures cause { OnLoadFlash result
        (Rose (B.means.counts board.old).flash_faults (B.means.counts board.new).flash_faults) }
{
    match load_record(board, place, number, buf) {
        Ok(found) => {
            held.keep(found);
            Ok(())
        }
        Err(fault) => Err(fault),
    }
}

impl Vault {
    // The place and the number of the record at a position of a store.
    fn record_at(&self, at: u32, position: u32) -> (Place, u32)
        requires is_open { self.now.is_open ≡ true }
        requires within { IsPosition self.now at position }
        ensures place { IsPlace self.now.blocks result.0 }
        ensures at { IsRecordAt self.now at position result.0 result.1 }
    {
        let indexes: &[Index] = &self.indexes;
        let index = &indexes[at as usize];
        let entry = index.entry(position);
        let place = Place {
            block: u32::from(entry.block),
            page: u32::from(entry.page),
            length: u32::from(entry.length),
        };
        (place, index.first().wrapping_add(position))
    }

    // Loads the record at a position of a store, and holds it.
    pub(crate) fn load<B: Board>(
        &mut self,
        board: &mut B,
        at: u32,
        position: u32,
    ) -> Result<(), VaultFault>
        requires is_open { self.old.is_open ≡ true }
        requires blocks { self.old.blocks ≡ (B.means.device board.old).blocks }
        requires within { IsPosition self.old at position }

        ensures told { TellsFlash B.means board.old → (table : Table)
            → StandsFor self.old (B.means.flash board.old) table
            → Holds table at position result self.new.held }
        ensures after { IsAfterFetch self.old self.new result }
        ensures packet { OnOk result (IsPacket self.new.held.packet) }
        ensures mismatch { IfErr result (TellsDifference self.old at position) }
        ensures reads { ReadsOnly B.means (charge_at self.old at position) board.old board.new }
        ensures no_fault { UnlessFlash result
            ((B.means.counts board.new).flash_faults ≡ (B.means.counts board.old).flash_faults) }
        ensures cause { OnFlash result (Rose (B.means.counts board.old).flash_faults
            (B.means.counts board.new).flash_faults) }
    {
        let (place, number) = self.record_at(at, position);
        match load_into(board, place, number, &mut self.buffer, &mut self.held) {
            Ok(()) => Ok(()),
            Err(fault) => {
                self.is_open = false;
                Err(fault_of(fault))
            }
        }
    }

    // The record that is held.
    pub(crate) fn held(&self) -> RecordView<'_>
        requires { IsPacket self.now.held.packet }
        ensures same { meaning_of result ≡ self.now.held }
        ensures stamp { result.stamp < 2 ^ 48 }
    {
        self.held.view()
    }

    /// The record at a position of the store at a place, read from the flash. The position is below
    /// the number of the store's packets. It reads the pages of the record alone, and changes
    /// nothing on the flash.
    ///
    /// `Flash`: a read failed. `Mismatch`: what is found is not the record that was kept. The vault
    /// is closed after these.
    pub fn fetch<'a, B: Board>(
        &'a mut self,
        board: &mut B,
        at: u32,
        position: u32,
    ) -> Result<RecordView<'a>, VaultFault>
        requires is_open { self.old.is_open ≡ true }
        requires blocks { self.old.blocks ≡ (B.means.device board.old).blocks }
        requires within { IsPosition self.old at position }

        // If the flash is told, and the vault stands for its table, the packet and the time are
        // those of the table, and nothing differs.
        ensures told { TellsFlash B.means board.old → (table : Table)
            → StandsFor self.old (B.means.flash board.old) table → Answers table at position result }

        // What holds on each board.
        ensures* moves { sem 𝓛 (RestsFetched self.entry result) }
        ensures stamp { IfOk result (λ view. view.stamp < 2 ^ 48) }
        ensures mismatch { IfErr result (TellsDifference self.old at position) }
        ensures reads { ReadsOnly B.means (charge_at self.old at position) board.old board.new }
        ensures no_fault { UnlessFlash result
            ((B.means.counts board.new).flash_faults ≡ (B.means.counts board.old).flash_faults) }
        ensures cause { OnFlash result (Rose (B.means.counts board.old).flash_faults
            (B.means.counts board.new).flash_faults) }
    {
        self.load(board, at, position)?;
        Ok(self.held())
    }
}
