// The handler of commands.
//
// Order: a command is made durable first, and only then are its lines sent. So what was sent survives a
// power loss.
ghost use Rattle.std.specs.Prelude.{◌≡◌, ◌≤◌, ◌<◌, ◌^◌, ◌+◌, ◌==◌, ℕ, [], None, Ok, Some, true, IfOk, OnOk};
ghost use Rattle.handler.specs.Carrying.{Answers, IsBoardOf};
ghost use Rattle.handler.specs.Working.{ArrivesWithin, WorksWithin, pages_retrieved};
ghost use Rattle.pst_model.specs.Answers.{answer};
ghost use Rattle.pst_model.specs.Arrivals.{arrive};
ghost use Rattle.pst_model.specs.Rules.{grant};
ghost use Rattle.pst_model.specs.Table.{Table};
ghost use Rattle.retrieval.specs.Picks.{pick_of};
ghost use Rattle.retrieval.specs.declared.pick.Pick.{Pick};
ghost use Rattle.space_packet.specs.Packet.{apid_of};
ghost use Rattle.space_packet.specs.View.{octets_of};
ghost use Rattle.vault.specs.Arriving.{IsFreshenedBy};
ghost use Rattle.vault.specs.Changing.{RoomAfter, if_short};
ghost use Rattle.vault.specs.Granting.{charge_next};
ghost use Rattle.vault.specs.Memory.{IsSound};
ghost use Rattle.vault.specs.Standing.{StandsFor};
ghost use Rattle.vault.specs.Storing.{AreFreshFor};

use crate::arrivals::take_in;
use crate::fault::HandlerFault;
use crate::granting::send_next;
use crate::requests::answer_request;
use board::Board;
use report_lines::{Buffers, Sent};
use space_packet::PacketView;
use std::alloc::{AllocError, Global};
use std::marker::Model;
use vault::Vault;

/// The durable table with what it takes to carry out commands on it. It is open until a call answers
/// `Flash`, `Link` or `Mismatch`.
#[derive(Drop)]
pub struct Handler {
    vault: Vault,
    buffers: Buffers,
    is_open: bool,
}

impl Model for Handler {
    ghost use Rattle.std.specs.Prelude.{◌≡◌, true};
    ghost use Rattle.handler.specs.Carrying.{Held, IsReady};

    ghost Value = { Held };

    ghost view = { λ h. record { vault = h.vault; is_open = h.is_open } };

    ghost invariant = { λ h. h.is_open ≡ true → IsReady h.vault };
}

impl Handler {
    /// A handler of an open vault.
    pub fn new(alloc: Global, vault: Vault) -> Result<Handler, AllocError>
        requires is_open { vault.is_open ≡ true }
        ensures vault { IfOk result (λ handler. handler.vault ≡ vault) }
        ensures open { IfOk result (λ handler. handler.is_open ≡ true) }
    {
        // What is shown of an open vault fits together.
        let _ = vault.view();
        Ok(Handler {
            vault,
            buffers: Buffers::new(alloc)?,
            is_open: true,
        })
    }

    /// Whether no call has answered `Flash`, `Link` or `Mismatch`.
    pub fn is_open(&self) -> bool
        ensures { result ≡ self.now.is_open }
    {
        self.is_open
    }

    /// The durable table.
    pub fn vault(&self) -> &Vault
        ensures { result.now ≡ self.now.vault }
    {
        &self.vault
    }

    /// Passes an idle time at a moment below 2^48. Nothing changes, and nothing is sent.
    pub fn idle<B: Board>(&mut self, board: &mut B, moment: u64) -> Result<Sent, HandlerFault>
        requires is_open { self.old.is_open ≡ true }
        requires moment { moment < 2 ^ 48 }
        requires board { IsBoardOf B.means self.old.vault board.old }
        ensures answers { Answers B.means board.old board.new self.old self.new
            (λ number table. record { table = table; outputs = [] }) result }
        ensures ok { result
            ≡ Ok (record { forwarded = 0; replies = 0; retrieved = 0; octets = 0 }) }
        ensures same { self.new ≡ self.old }
        ensures board { board.new ≡ board.old }
    {
        match self.vault.idle(board) {
            Ok(()) => Ok(Sent::default()),
            Err(_) => Err(HandlerFault::Flash),
        }
    }

    /// Carries out a grant at a moment below 2^48: the packet that it retrieves, if there is one, is
    /// counted as sent, and then sent on the channel of its store. It reads the pages of its record
    /// alone. If less than 21 pages of the journal are room, the journal's other half counts
    /// afterwards.
    pub fn grant<B: Board>(&mut self, board: &mut B, moment: u64) -> Result<Sent, HandlerFault>
        requires is_open { self.old.is_open ≡ true }
        requires moment { moment < 2 ^ 48 }
        requires board { IsBoardOf B.means self.old.vault board.old }
        ensures answers { Answers B.means board.old board.new self.old self.new
            (λ number table. grant number table) result }
        ensures work { WorksWithin (charge_next self.old.vault)
            (if_short self.old.vault.journal.room 85 + 2) (if_short self.old.vault.journal.room 7)
            (if_short self.old.vault.journal.room 13 + 2)
            (B.means.counts board.old) (B.means.counts board.new) }
        ensures reads { (table : Table) (number : ℕ)
            → StandsFor self.old.vault (B.means.flash board.old) table
            → charge_next self.old.vault ≤ pages_retrieved (grant number table).outputs }
        ensures room { OnOk result ((pick : Pick)
            → pick_of self.old.vault.directory.stores ≡ Some pick
            → RoomAfter 2 self.old.vault.journal.room self.new.vault.journal.room) }
        ensures nothing { pick_of self.old.vault.directory.stores ≡ None
            → (board.new ≡ board.old) × (self.new.vault ≡ self.old.vault) }
        ensures lasts { self.new.vault.lasts ≡ self.old.vault.lasts }
    {
        let result = send_next(&mut self.vault, &mut self.buffers, board);
        self.is_open = result.is_ok();
        result
    }

    /// Takes in a packet that arrives at a moment below 2^48: the stores that take it, the time and the
    /// count of the reports are durable before the first line is sent. Then it is forwarded on channel 0
    /// if a forward pattern covers it, and each refusal that has to be told is reported. It takes no
    /// memory. If less than 21 pages of the journal are room, the journal's other half counts
    /// afterwards. It reads nothing of the flash if no store has to be renewed first.
    pub fn arrival<B: Board>(
        &mut self,
        board: &mut B,
        moment: u64,
        packet: PacketView<'_>,
    ) -> Result<Sent, HandlerFault>
        requires is_open { self.old.is_open ≡ true }
        requires moment { moment < 2 ^ 48 }
        requires board { IsBoardOf B.means self.old.vault board.old }
        ensures answers { Answers B.means board.old board.new self.old self.new
            (λ number table. arrive number moment (octets_of packet.entry) table) result }
        ensures work { AreFreshFor (octets_of packet.entry) self.old.vault
            → ArrivesWithin B.means board.old board.new self.old.vault (octets_of packet.entry) }
        ensures idle_work { (apid_of (octets_of packet.entry) == 2047) ≡ true
            → WorksWithin 0 (if_short self.old.vault.journal.room 85 + 2)
            (if_short self.old.vault.journal.room 7) (if_short self.old.vault.journal.room 13 + 2)
            (B.means.counts board.old) (B.means.counts board.new) }
        ensures room { OnOk result (AreFreshFor (octets_of packet.entry) self.old.vault
            → RoomAfter 7 self.old.vault.journal.room self.new.vault.journal.room) }
        ensures stale { OnOk result
            (IsFreshenedBy (octets_of packet.entry) self.old.vault self.new.vault) }
    {
        let result = take_in(&mut self.vault, &mut self.buffers, board, moment, packet);
        self.is_open = result.is_ok();
        result
    }

    /// Carries out a request, in any packet, at a moment below 2^48, and sends the reports that answer
    /// it: all of it is durable before the first report is sent. It reads nothing of the flash, and takes
    /// no memory. If less than 21 pages of the journal are room, the journal's other half counts
    /// afterwards.
    pub fn request<B: Board>(
        &mut self,
        alloc: Global,
        board: &mut B,
        moment: u64,
        packet: PacketView<'_>,
    ) -> Result<Sent, HandlerFault>
        requires is_open { self.old.is_open ≡ true }
        requires moment { moment < 2 ^ 48 }
        requires board { IsBoardOf B.means self.old.vault board.old }
        ensures answers { Answers B.means board.old board.new self.old self.new
            (λ number table. answer (B.means.device board.old).blocks number moment
            (octets_of packet.entry) table) result }
        ensures work { WorksWithin 0
            (if_short self.old.vault.journal.room 85 + 5) (if_short self.old.vault.journal.room 7)
            (if_short self.old.vault.journal.room 13 + 2)
            (B.means.counts board.old) (B.means.counts board.new) }
    {
        let vault = &mut self.vault;
        let result = answer_request(alloc, vault, &mut self.buffers, board, moment, packet);
        self.is_open = result.is_ok();
        result
    }

    /// Ends a session: what is pending is made durable. Nothing is.
    pub fn finish<B: Board>(&mut self, board: &mut B) -> Result<(), HandlerFault>
        requires is_open { self.old.is_open ≡ true }
        requires board { IsBoardOf B.means self.old.vault board.old }
        ensures done { result ≡ Ok tt }
        ensures same { self.new ≡ self.old }
        ensures board { board.new ≡ board.old }
        ensures sound { IsSound self.old.vault }
    {
        match self.vault.flush(board) {
            Ok(()) => Ok(()),
            Err(_) => Err(HandlerFault::Flash),
        }
    }
}
