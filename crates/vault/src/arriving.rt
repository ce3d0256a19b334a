// A packet arrives.
//
// Order: the stores that take it into a stale block are renewed, one entry for each, and the table
// stays as it is; then the packet is put into all stores by one entry. An idle packet changes the
// clock alone.
ghost use Rattle.std.specs.Prelude.{◌≡◌, ◌<◌, ◌+◌, ◌^◌, ◌==◌, ℕ, List, false, true, IfErr, IfOk, OnOk};
ghost use Rattle.board.specs.Counts.{Rose, Works};
ghost use Rattle.board.specs.Meaning.{TellsFlash, TellsLink};
ghost use Rattle.board.specs.Moments.{LeavesOnly, SendsNothing};
ghost use Rattle.image_table.specs.Standing.{HoldsEitherTable, HoldsTable};
ghost use Rattle.meta_journal.specs.Standing.{StandsFor as JournalStandsFor};
ghost use Rattle.pst_model.specs.Arrivals.{arrive};
ghost use Rattle.pst_model.specs.Table.{Table};
ghost use Rattle.space_packet.specs.Packet.{apid_of};
ghost use Rattle.space_packet.specs.View.{octets_of};
ghost use Rattle.store_policy.specs.Shown.{IsTableShown};
ghost use Rattle.store_policy.specs.declared.view.View.{View as Shown};
ghost use Rattle.vault.specs.Arriving.{Arrives, IsFreshenedBy, IsOutcomeOf};
ghost use Rattle.vault.specs.Changing.{RoomAfter, if_short};
ghost use Rattle.vault.specs.Fetching.{OnFlash, UnlessFlash};
ghost use Rattle.vault.specs.Memory.{IsSound, IsViewOf};
ghost use Rattle.vault.specs.Putting.{IsAfterPut, PutsWithin};
ghost use Rattle.vault.specs.Renewing.{DiffersUntold, LeavesLink};
ghost use Rattle.vault.specs.Standing.{StandsFor};
ghost use Rattle.vault.specs.Storing.{AreFreshFor};

use crate::fault::VaultFault;
use crate::outcome::StoreOutcome;
use crate::vault::Vault;
use arrayvec::ArrayVec;
use board::Board;
use pus_header::key_of;
use space_packet::PacketView;
use store_directory::Change;
use store_put::refusals_of;

impl Vault {
    // What an arriving packet asks for, by the table from before.
    fn outcome_of(&self, packet: &PacketView<'_>) -> StoreOutcome
        requires is_open { self.now.is_open ≡ true }
        ensures outcome { (table : Table) (view : Shown) → IsViewOf view self.now
            → IsTableShown table view → IsOutcomeOf (octets_of packet.now) table result }
        ensures first_report { result.first_report ≡ self.now.directory.reports }
        ensures sound { IsSound self.now }
    {
        let first_report = self.directory.reports();
        if packet.is_idle() {
            return StoreOutcome {
                forwarded: false,
                refused: ArrayVec::new(),
                first_report,
            };
        }
        StoreOutcome {
            forwarded: self.directory.forward().covers(&key_of(packet)),
            refused: refusals_of(&self.directory, &self.indexes, packet),
            first_report,
        }
    }

    // An idle packet changes the clock alone.
    fn raise_clock<B: Board>(
        &mut self,
        board: &mut B,
        moment: u64,
        packet: PacketView<'_>,
    ) -> Result<(), VaultFault>
        requires is_open { self.old.is_open ≡ true }
        requires blocks { self.old.blocks ≡ (B.means.device board.old).blocks }
        requires moment { moment < 2 ^ 48 }
        requires idle { (apid_of (octets_of packet) == 2047) ≡ true }
        requires flash { TellsFlash B.means board.old
            → (table : Table) × StandsFor self.old (B.means.flash board.old) table }
        ensures { Arrives B.means board.old board.new self.old self.new moment (octets_of packet.entry)
            result }
    {
        let change = Change::Clock {
            now: self.directory.now().max(moment),
            reports: self.directory.reports(),
        };
        self.enter(board, &change)
    }

    // A packet that is not idle is put into the stores that take it, behind the renewals that it needs.
    fn take_in<B: Board>(
        &mut self,
        board: &mut B,
        moment: u64,
        packet: PacketView<'_>,
    ) -> Result<(), VaultFault>
        requires is_open { self.old.is_open ≡ true }
        requires blocks { self.old.blocks ≡ (B.means.device board.old).blocks }
        requires moment { moment < 2 ^ 48 }
        requires busy { (apid_of (octets_of packet) == 2047) ≡ false }
        requires sound { IsSound self.old }
        requires flash { TellsFlash B.means board.old
            → (table : Table) × StandsFor self.old (B.means.flash board.old) table }
        ensures { Arrives B.means board.old board.new self.old self.new moment (octets_of packet.entry)
            result }
    {
        match self.renew_for(board, &packet) {
            Ok(()) => self.put_packet(board, moment, packet),
            Err(fault) => Err(fault),
        }
    }

    // A packet arrives.
    fn arrive<B: Board>(
        &mut self,
        board: &mut B,
        moment: u64,
        packet: PacketView<'_>,
    ) -> Result<(), VaultFault>
        requires is_open { self.old.is_open ≡ true }
        requires blocks { self.old.blocks ≡ (B.means.device board.old).blocks }
        requires moment { moment < 2 ^ 48 }
        requires sound { IsSound self.old }
        requires flash { TellsFlash B.means board.old
            → (table : Table) × StandsFor self.old (B.means.flash board.old) table }
        ensures { Arrives B.means board.old board.new self.old self.new moment
            (octets_of packet.entry) result }
    {
        if packet.is_idle() {
            self.raise_clock(board, moment, packet)
        } else {
            self.take_in(board, moment, packet)
        }
    }

    /// Takes in a packet that arrives at a moment, in 1/65,536 s and below 2^48 (ECSS-E-ST-70-41C,
    /// 6.14.3 and 6.15.3): the time rises to the moment, and each store whose storage is on, of which
    /// a pattern covers the packet and which has room, takes it. The reports of the refusals are
    /// counted. From `Ok` on all of it survives a power loss. It takes no memory. If less than 21
    /// pages of the journal are room, the journal's other half counts afterwards. It reads nothing
    /// but the records of stale blocks, which are renewed first.
    ///
    /// `Flash`: a call of the flash failed, and the table is the one from before or the one behind the
    /// arrival. `Mismatch`: in a block that had to be renewed, what is found is not the record that
    /// was kept; the table is the one from before. The vault is closed after these.
    pub fn store<B: Board>(
        &mut self,
        board: &mut B,
        moment: u64,
        packet: PacketView<'_>,
    ) -> Result<StoreOutcome, VaultFault>
        requires is_open { self.old.is_open ≡ true }
        requires blocks { self.old.blocks ≡ (B.means.device board.old).blocks }
        requires moment { moment < 2 ^ 48 }
        requires flash { TellsFlash B.means board.old
            → (table : Table) × StandsFor self.old (B.means.flash board.old) table }

        // If the flash is told, and the vault stands for a table: at each moment, also if the call
        // failed, each image holds that table or the one behind the arrival. At `Ok` the vault
        // stands for the latter, and each image holds it.
        ensures any_moment { TellsFlash B.means board.old → (table : Table) (number : ℕ)
            → StandsFor self.old (B.means.flash board.old) table
            → LeavesOnly B.means board.old board.new (HoldsEitherTable self.old.blocks table
            (arrive number moment (octets_of packet.entry) table).table) }
        ensures stands { OnOk result (TellsFlash B.means board.old → (table : Table) (number : ℕ)
            → StandsFor self.old (B.means.flash board.old) table
            → StandsFor self.new (B.means.flash board.new)
            (arrive number moment (octets_of packet.entry) table).table) }
        ensures holds { OnOk result (TellsFlash B.means board.old → (table : Table) (number : ℕ)
            → StandsFor self.old (B.means.flash board.old) table → (image : ℕ → List ℕ)
            → B.means.images board.new (B.means.moment board.new) image
            → HoldsTable self.old.blocks (arrive number moment (octets_of packet.entry) table).table image) }

        // What holds on each board.
        ensures outcome { IfOk result (λ outcome. (table : Table) (view : Shown)
            → IsViewOf view self.old → IsTableShown table view
            → IsOutcomeOf (octets_of packet.entry) table outcome) }
        ensures first_report { IfOk result
            (λ outcome. outcome.first_report ≡ self.old.directory.reports) }
        ensures after { IsAfterPut self.old self.new result }
        ensures sound { OnOk result (IsSound self.new) }
        ensures journal { OnOk result (TellsFlash B.means board.old
            → JournalStandsFor self.new.journal (B.means.flash board.new)) }
        ensures stale { OnOk result (IsFreshenedBy (octets_of packet.entry) self.old self.new) }
        ensures quiet { TellsLink B.means board.old → SendsNothing B.means board.old board.new }
        ensures link { LeavesLink (B.means.counts board.old) (B.means.counts board.new) }
        ensures same { B.means.device board.new ≡ B.means.device board.old }
        ensures work { AreFreshFor (octets_of packet.entry) self.old
            → PutsWithin B.means board.old board.new self.old (octets_of packet.entry) }
        ensures idle_work { (apid_of (octets_of packet.entry) == 2047) ≡ true
            → Works 0 (if_short self.old.journal.room 85 + 2) (if_short self.old.journal.room 7)
            (if_short self.old.journal.room 13 + 2)
            (B.means.counts board.old) (B.means.counts board.new) }
        ensures room { OnOk result (AreFreshFor (octets_of packet.entry) self.old
            → RoomAfter 7 self.old.journal.room self.new.journal.room) }
        ensures mismatch { IfErr result (DiffersUntold (TellsFlash B.means board.old)) }
        ensures no_fault { UnlessFlash result
            ((B.means.counts board.new).flash_faults ≡ (B.means.counts board.old).flash_faults) }
        ensures cause { OnFlash result (Rose (B.means.counts board.old).flash_faults
            (B.means.counts board.new).flash_faults) }
    {
        let outcome = self.outcome_of(&packet);
        match self.arrive(board, moment, packet) {
            Ok(()) => Ok(outcome),
            Err(fault) => Err(fault),
        }
    }
}
