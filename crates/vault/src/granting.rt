// The next packet of retrieval.
//
// Order: the record of the packet is read and held, then the row of its store is entered, which counts
// the packet as sent; only then is the packet lent. So what was lent is not sent again.
ghost use Rattle.std.specs.Prelude.{◌≡◌, ◌+◌, ℕ, List, None, Some, true, IfErr, IfOk, IfSome, OnErr, OnOk, is_ok};
ghost use Rattle.std.specs.Borrow.{sem};
ghost use Rattle.board.specs.Counts.{Rose};
ghost use Rattle.board.specs.Meaning.{TellsFlash};
ghost use Rattle.board.specs.Moments.{LeavesOnly};
ghost use Rattle.board.specs.Touches.{ReadsAndTouches, Touches};
ghost use Rattle.image_table.specs.Standing.{HoldsEitherTable, HoldsTable};
ghost use Rattle.meta_journal.specs.Standing.{StandsFor as JournalStandsFor};
ghost use Rattle.pst_model.specs.Rules.{grant};
ghost use Rattle.pst_model.specs.Table.{Table};
ghost use Rattle.retrieval.specs.Picks.{pick_of};
ghost use Rattle.space_packet.specs.Packet.{IsPacket};
ghost use Rattle.space_packet.specs.View.{octets_of};
ghost use Rattle.vault.specs.Changing.{RoomAfter, if_short, journal_pages};
ghost use Rattle.vault.specs.Fetching.{OnFlash, UnlessFlash};
ghost use Rattle.vault.specs.Granting.{DiffersNext, IsAfterPass, IsChannel, IsGranted, IsNoneFor};
ghost use Rattle.vault.specs.Granting.{SendsAnswer, SendsHeld, charge_next};
ghost use Rattle.vault.specs.Lending.{RestsGranted};
ghost use Rattle.vault.specs.Memory.{IsSound};
ghost use Rattle.vault.specs.Standing.{StandsFor};

use crate::fault::VaultFault;
use crate::vault::Vault;
use board::Board;
use retrieval::{Pick, after_sent, next_of};
use space_packet::PacketView;
use store_directory::Change;

impl Vault {
    // Enters that the packet of a pick was sent.
    fn pass<B: Board>(&mut self, board: &mut B, pick: &Pick) -> Result<(), VaultFault>
        requires is_open { self.old.is_open ≡ true }
        requires blocks { self.old.blocks ≡ (B.means.device board.old).blocks }
        requires journal { TellsFlash B.means board.old
            → JournalStandsFor self.old.journal (B.means.flash board.old) }
        requires picked { pick_of self.old.directory.stores ≡ Some pick.now }

        ensures any_moment { TellsFlash B.means board.old → (table : Table) (number : ℕ)
            → StandsFor self.old (B.means.flash board.old) table
            → LeavesOnly B.means board.old board.new
            (HoldsEitherTable self.old.blocks table (grant number table).table) }
        ensures stands { OnOk result (TellsFlash B.means board.old → (table : Table) (number : ℕ)
            → StandsFor self.old (B.means.flash board.old) table
            → StandsFor self.new (B.means.flash board.new) (grant number table).table) }
        ensures after { IsAfterPass self.old self.new pick.now result }
        ensures sound { OnOk result (IsSound self.new) }
        ensures journal { OnOk result (TellsFlash B.means board.old
            → JournalStandsFor self.new.journal (B.means.flash board.new)) }
        ensures room { OnOk result
            (RoomAfter 2 self.old.journal.room self.new.journal.room) }
        ensures touches { Touches B.means journal_pages
            (if_short self.old.journal.room 85 + 2) (if_short self.old.journal.room 7)
            (if_short self.old.journal.room 13 + 2) board.old board.new }
        ensures fault { IfErr result (λ fault. fault ≡ VaultFault.Flash) }
        ensures no_fault { OnOk result
            ((B.means.counts board.new).flash_faults ≡ (B.means.counts board.old).flash_faults) }
        ensures cause { OnErr result (Rose (B.means.counts board.old).flash_faults
            (B.means.counts board.new).flash_faults) }
    {
        let row = after_sent(self.directory.row(pick.at), pick);
        self.enter(board, &Change::Put(row))
    }

    // Holds the packet that is sent next, and enters that it was sent. Returns its channel.
    fn send_next<B: Board>(&mut self, board: &mut B) -> Result<Option<u8>, VaultFault>
        requires is_open { self.old.is_open ≡ true }
        requires blocks { self.old.blocks ≡ (B.means.device board.old).blocks }
        requires journal { TellsFlash B.means board.old
            → JournalStandsFor self.old.journal (B.means.flash board.old) }

        ensures any_moment { TellsFlash B.means board.old → (table : Table) (number : ℕ)
            → StandsFor self.old (B.means.flash board.old) table
            → LeavesOnly B.means board.old board.new
            (HoldsEitherTable self.old.blocks table (grant number table).table) }
        ensures sends { TellsFlash B.means board.old → (table : Table) (number : ℕ)
            → StandsFor self.old (B.means.flash board.old) table
            → SendsHeld number table result self.new.held.packet }
        ensures granted { IsGranted B.means board.old board.new self.old self.new (is_ok result) }
        ensures none { IsNoneFor (pick_of self.old.directory.stores) result }
        ensures nothing { pick_of self.old.directory.stores ≡ None → board.new ≡ board.old }
        ensures channel { IfOk result (λ sent. IfSome sent IsChannel) }
        ensures packet { IfOk result (λ sent. IfSome sent (λ _. IsPacket self.new.held.packet)) }
        ensures mismatch { IfErr result (DiffersNext self.old) }
        ensures works { ReadsAndTouches B.means journal_pages (charge_next self.old)
            (if_short self.old.journal.room 85 + 2) (if_short self.old.journal.room 7)
            (if_short self.old.journal.room 13 + 2) board.old board.new }
        ensures no_fault { UnlessFlash result
            ((B.means.counts board.new).flash_faults ≡ (B.means.counts board.old).flash_faults) }
        ensures cause { OnFlash result (Rose (B.means.counts board.old).flash_faults
            (B.means.counts board.new).flash_faults) }
    {
        let Some(pick) = next_of(&self.directory) else {
            return Ok(None);
        };
        self.load(board, pick.at, pick.position)?;
        self.pass(board, &pick)?;
        Ok(Some(pick.channel))
    }

    /// Sends the next packet of retrieval (ECSS-E-ST-70-41C, 6.15.3): the one of the first store with
    /// a range, or else of the first store whose open retrieval has packets ahead. It returns the
    /// packet and the virtual channel of its store, 1 to 7; `None`, without a call, if there is no such
    /// store. From `Ok` on a power loss leaves the packet counted as sent. It takes no memory, and
    /// reads the pages of the record alone. If less than 21 pages of the journal are room, the
    /// journal's other half counts afterwards.
    ///
    /// `Flash`: a call of the flash failed, and the packet is counted as sent or is not. `Mismatch`:
    /// what is found is not the record that was kept, and it is not counted. The vault is closed after
    /// these.
    pub fn grant<'a, B: Board>(
        &'a mut self,
        board: &mut B,
    ) -> Result<Option<(u8, PacketView<'a>)>, VaultFault>
        requires is_open { self.old.is_open ≡ true }
        requires blocks { self.old.blocks ≡ (B.means.device board.old).blocks }
        requires journal { TellsFlash B.means board.old
            → JournalStandsFor self.old.journal (B.means.flash board.old) }

        // If the flash is told, and the vault stands for a table: at each moment, also if the call
        // failed, each image holds that table or the one after the grant. At `Ok` each image holds
        // the latter, and the vault stands for it (`moves`). What is returned is what the model's
        // grant sends.
        ensures any_moment { TellsFlash B.means board.old → (table : Table) (number : ℕ)
            → StandsFor self.old (B.means.flash board.old) table
            → LeavesOnly B.means board.old board.new
            (HoldsEitherTable self.old.blocks table (grant number table).table) }
        ensures holds { OnOk result (TellsFlash B.means board.old → (table : Table) (number : ℕ)
            → StandsFor self.old (B.means.flash board.old) table → (image : ℕ → List ℕ)
            → B.means.images board.new (B.means.moment board.new) image
            → HoldsTable self.old.blocks (grant number table).table image) }
        ensures answer { TellsFlash B.means board.old → (table : Table) (number : ℕ)
            → StandsFor self.old (B.means.flash board.old) table → SendsAnswer number table result }

        // What holds on each board.
        ensures* moves { sem 𝓛 (RestsGranted B.means board.old board.new self.entry (is_ok result)) }
        ensures none { IsNoneFor (pick_of self.old.directory.stores) result }
        ensures nothing { pick_of self.old.directory.stores ≡ None → board.new ≡ board.old }
        ensures channel { IfOk result (λ sent. IfSome sent (λ sent. IsChannel sent.0)) }
        ensures packet { IfOk result (λ sent. IfSome sent (λ sent. IsPacket (octets_of sent.1))) }
        ensures mismatch { IfErr result (DiffersNext self.old) }
        ensures works { ReadsAndTouches B.means journal_pages (charge_next self.old)
            (if_short self.old.journal.room 85 + 2) (if_short self.old.journal.room 7)
            (if_short self.old.journal.room 13 + 2) board.old board.new }
        ensures no_fault { UnlessFlash result
            ((B.means.counts board.new).flash_faults ≡ (B.means.counts board.old).flash_faults) }
        ensures cause { OnFlash result (Rose (B.means.counts board.old).flash_faults
            (B.means.counts board.new).flash_faults) }
    {
        match self.send_next(board) {
            Ok(Some(channel)) => Ok(Some((channel, self.held().packet))),
            Ok(None) => Ok(None),
            Err(fault) => Err(fault),
        }
    }
}
