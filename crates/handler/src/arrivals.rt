// A packet arrives: it is taken in durably, and then its lines are sent, which are the packet itself, if
// it is forwarded, and a report for each store that refused it.
ghost use Rattle.std.specs.Prelude.{◌≡◌, ◌≤◌, ◌<◌, ◌^◌, ◌+◌, ◌*◌, ◌==◌, ◌∷◌, [], ℕ, if◌then◌else◌, is_ok, length, true, IfOk, OnOk, OnErr};
ghost use Rattle.handler.specs.Arriving.{forwarded_as, lines_by, refusals_from};
ghost use Rattle.handler.specs.Carrying.{Answers, IsBoardOf, IsReady, handler_of};
ghost use Rattle.handler.specs.Working.{ArrivesWithin, WorksWithin};
ghost use Rattle.pst_model.specs.Arrivals.{arrive};
ghost use Rattle.report_lines.specs.Counting.{IsCountOf};
ghost use Rattle.report_lines.specs.Sending.{BreaksIn, SendsLines};
ghost use Rattle.space_packet.specs.Packet.{apid_of};
ghost use Rattle.space_packet.specs.View.{octets_of};
ghost use Rattle.vault.specs.Arriving.{IsFreshenedBy};
ghost use Rattle.vault.specs.Changing.{RoomAfter, if_short};
ghost use Rattle.vault.specs.Storing.{AreFreshFor};

use crate::fault::{HandlerFault, fault_of};
use crate::replies::count_after;
use board::{Board, Failed};
use pus_report::Head;
use report_lines::{Buffers, Sent, send_event};
use space_packet::PacketView;
use store_put::RefusedPut;
use vault::Vault;

/// The channel of forwarded packets.
const FORWARDED: u8 = 0;

// Forwards a packet, if that is asked for.
fn send_forwarded<B: Board>(
    buffers: &mut Buffers,
    board: &mut B,
    packet: PacketView<'_>,
    is_forwarded: bool,
) -> Result<Sent, Failed>
    ensures sends { OnOk result ((number : ℕ) → SendsLines B.means board.old board.new
        (if is_forwarded then forwarded_as number (octets_of packet.entry) ∷ [] else [])) }
    ensures counted { IfOk result (λ sent. (number : ℕ) → IsCountOf
        (if is_forwarded then forwarded_as number (octets_of packet.entry) ∷ [] else []) sent) }
    ensures few { IfOk result (λ sent. sent.octets ≤ 8195) }
    ensures alone { IfOk result (λ sent. (sent.replies ≡ 0) × (sent.retrieved ≡ 0)) }
    ensures breaks { OnErr result ((number : ℕ) → BreaksIn B.means board.old board.new
        (if is_forwarded then forwarded_as number (octets_of packet.entry) ∷ [] else [])) }
{
    if !is_forwarded {
        return Ok(Sent::default());
    }
    let octets = buffers.send(board, FORWARDED, packet.bytes())?;
    Ok(Sent {
        forwarded: 1,
        octets: u64::from(octets),
        ..Sent::default()
    })
}

// Sends the report of each refusal. The first one has the count of the head.
fn send_refusals<B: Board>(
    buffers: &mut Buffers,
    board: &mut B,
    head: Head,
    refused: &[RefusedPut],
) -> Result<Sent, Failed>
    requires count { head.count < 16384 }
    requires moment { head.moment < 2 ^ 48 }
    requires few { length refused.now ≤ 32 }
    ensures sends { OnOk result ((number : ℕ) → SendsLines B.means board.old board.new
        (refusals_from number head.moment head.count refused.now)) }
    ensures counted { IfOk result (λ sent. (number : ℕ) → IsCountOf
        (refusals_from number head.moment head.count refused.now) sent) }
    ensures few { IfOk result (λ sent. sent.octets ≤ 10000000 * 32) }
    ensures alone { IfOk result (λ sent. sent.forwarded ≡ 0) }
    ensures breaks { OnErr result ((number : ℕ) → BreaksIn B.means board.old board.new
        (refusals_from number head.moment head.count refused.now)) }
{
    let Head { count, moment } = head;
    let mut sent = Sent::default();
    let mut next = count;
    for refusal in refused {
        let head = Head {
            count: next,
            moment,
        };
        let RefusedPut { store, need, free } = *refusal;
        let one = send_event(board, buffers, head, store, need, free)?;
        next = count_after(next, 1);
        sent.replies += 1;
        sent.octets += one.octets;
    }
    Ok(sent)
}

// Sends the lines of a packet: the packet itself, if it is forwarded, and the report of each refusal.
// The first report has the count and the time of the head.
fn send_lines<B: Board>(
    buffers: &mut Buffers,
    board: &mut B,
    head: Head,
    packet: PacketView<'_>,
    is_forwarded: bool,
    refused: &[RefusedPut],
) -> Result<Sent, Failed>
    requires count { head.count < 16384 }
    requires moment { head.moment < 2 ^ 48 }
    requires few { length refused.now ≤ 32 }
    ensures sends { OnOk result ((number : ℕ) → SendsLines B.means board.old board.new
        (lines_by number head.moment head.count is_forwarded (octets_of packet.entry) refused.now)) }
    ensures counted { IfOk result (λ sent. (number : ℕ) → IsCountOf
        (lines_by number head.moment head.count is_forwarded (octets_of packet.entry) refused.now)
        sent) }
    ensures breaks { OnErr result ((number : ℕ) → BreaksIn B.means board.old board.new
        (lines_by number head.moment head.count is_forwarded (octets_of packet.entry) refused.now)) }
{
    let first = send_forwarded(buffers, board, packet, is_forwarded)?;
    let others = send_refusals(buffers, board, head, refused)?;
    Ok(Sent {
        forwarded: first.forwarded,
        octets: first.octets + others.octets,
        ..others
    })
}

/// Takes in a packet that arrives at a moment below 2^48, and sends its lines.
pub(crate) fn take_in<B: Board>(
    vault: &mut Vault,
    buffers: &mut Buffers,
    board: &mut B,
    moment: u64,
    packet: PacketView<'_>,
) -> Result<Sent, HandlerFault>
    requires ready { IsReady vault.old }
    requires board { IsBoardOf B.means vault.old board.old }
    requires moment { moment < 2 ^ 48 }
    ensures answers { Answers B.means board.old board.new (handler_of vault.old true)
        (handler_of vault.new (is_ok result))
        (λ number table. arrive number moment (octets_of packet.entry) table) result }
    ensures ready { OnOk result (IsReady vault.new) }
    ensures work { AreFreshFor (octets_of packet.entry) vault.old
        → ArrivesWithin B.means board.old board.new vault.old (octets_of packet.entry) }
    ensures idle_work { (apid_of (octets_of packet.entry) == 2047) ≡ true
        → WorksWithin 0 (if_short vault.old.journal.room 85 + 2) (if_short vault.old.journal.room 7)
        (if_short vault.old.journal.room 13 + 2)
        (B.means.counts board.old) (B.means.counts board.new) }
    ensures room { OnOk result (AreFreshFor (octets_of packet.entry) vault.old
        → RoomAfter 7 vault.old.journal.room vault.new.journal.room) }
    ensures stale { OnOk result (IsFreshenedBy (octets_of packet.entry) vault.old vault.new) }
{
    let outcome = match vault.store(board, moment, packet) {
        Ok(outcome) => outcome,
        Err(fault) => return Err(fault_of(fault)),
    };
    let head = Head {
        count: outcome.first_report,
        moment,
    };
    let refused = outcome.refused.as_slice();
    match send_lines(buffers, board, head, packet, outcome.forwarded, refused) {
        Ok(sent) => Ok(sent),
        Err(_) => Err(HandlerFault::Link),
    }
}
