// A request: it is judged, carried out durably, and then answered.
ghost use Rattle.std.specs.Prelude.{◌≡◌, ◌≤◌, ◌<◌, ◌^◌, ◌+◌, ◌∷◌, [], ℕ, List, OnOk, is_ok, length, map, take, true};
ghost use Rattle.handler.specs.Carrying.{Answers, IsBoardOf, IsReady, handler_of};
ghost use Rattle.handler.specs.Working.{WorksWithin};
ghost use Rattle.pst_model.specs.Answers.{answer, answer_carried, carry_out};
ghost use Rattle.pst_model.specs.Replies.{replied};
ghost use Rattle.pst_model.specs.Reports.{verdict_report};
ghost use Rattle.pus_header.specs.Commands.{acks_of, identifier_of};
ghost use Rattle.pus_request.specs.View.{listed};
ghost use Rattle.request_laws.specs.Counting.{CanBeCarried};
ghost use Rattle.space_packet.specs.View.{octets_of};
ghost use Rattle.vault.specs.Changing.{if_short};
ghost use Rattle.vault.specs.Requests.{failure_of};

use crate::fault::HandlerFault;
use crate::judging::judge;
use crate::replies::{Carried, send_answer};
use board::Board;
use control_defs::Instruction;
use pst_model::Verdict;
use pus_header::identifier_of;
use pus_report::Head;
use pus_request::Items;
use report_lines::{Buffers, Failures, Sent};
use space_packet::PacketView;
use std::alloc::Global;
use store_policy::Refusal;
use vault::Vault;

// The instructions, and behind them the first one again.
fn instructions(items: &Items<'_>) -> [Instruction; 32]
    ensures { take (length (listed items.now)) result ≡ listed items.now }
{
    let mut list = [items.first(); 32];
    for at in 0..items.len() {
        list[at as usize] = items.get(at);
    }
    list
}

// Of each instruction that was refused its number and the code of its refusal.
fn failures_of(refused: &[(u8, Refusal)]) -> Failures
    requires few { length refused.now ≤ 32 }
    ensures { result.items ≡ map failure_of refused.now }
{
    let mut failures = Failures::new();
    for failed in refused {
        failures.push((failed.0, failed.1.code()));
    }
    failures
}

// Counts the report of a verdict that refuses a request, and sends it.
fn refuse<B: Board>(
    vault: &mut Vault,
    buffers: &mut Buffers,
    board: &mut B,
    moment: u64,
    request: [u8; 4],
    refused: Verdict,
) -> Result<Sent, HandlerFault>
    requires ready { IsReady vault.old }
    requires board { IsBoardOf B.means vault.old board.old }
    requires moment { moment < 2 ^ 48 }
    ensures answers { Answers B.means board.old board.new (handler_of vault.old true)
        (handler_of vault.new (is_ok result))
        (λ number table. replied number moment table (verdict_report request refused ∷ [])) result }
    ensures ready { OnOk result (IsReady vault.new) }
    ensures work { WorksWithin 0
        (if_short vault.old.journal.room 85 + 2) (if_short vault.old.journal.room 7)
        (if_short vault.old.journal.room 13 + 2)
        (B.means.counts board.old) (B.means.counts board.new) }
{
    let Ok(count) = vault.report(board) else {
        return Err(HandlerFault::Flash);
    };
    let head = Head { count, moment };
    match buffers.send_verdict(board, head, refused, request) {
        Ok(octets) => Ok(Sent {
            replies: 1,
            octets: u64::from(octets),
            ..Sent::default()
        }),
        Err(_) => Err(HandlerFault::Link),
    }
}

// Carries out the request that a packet is, and answers it.
fn carry_out_request<B: Board>(
    alloc: Global,
    vault: &mut Vault,
    buffers: &mut Buffers,
    board: &mut B,
    moment: u64,
    request: &Carried<'_>,
) -> Result<Sent, HandlerFault>
    requires ready { IsReady vault.old }
    requires board { IsBoardOf B.means vault.old board.old }
    requires moment { moment < 2 ^ 48 }
    requires carried { CanBeCarried (listed request.now.items) }
    requires acks { request.now.acks < 16 }
    ensures answers { (packet : List ℕ) → identifier_of packet ≡ request.now.identifier
        → acks_of packet ≡ request.now.acks
        → Answers B.means board.old board.new (handler_of vault.old true)
        (handler_of vault.new (is_ok result))
        (λ number table. answer_carried number moment packet (listed request.now.items)
        (carry_out vault.old.blocks (listed request.now.items) table)) result }
    ensures ready { OnOk result (IsReady vault.new) }
    ensures work { WorksWithin 0
        (if_short vault.old.journal.room 85 + 5) (if_short vault.old.journal.room 7)
        (if_short vault.old.journal.room 13 + 2)
        (B.means.counts board.old) (B.means.counts board.new) }
{
    let list = instructions(&request.items);
    let items = &list[..request.items.len() as usize];
    let Ok(outcome) = vault.change(alloc, board, items, request.acks) else {
        return Err(HandlerFault::Flash);
    };
    let failures = failures_of(outcome.refused.as_slice());
    let head = Head {
        count: outcome.first_report,
        moment,
    };
    match send_answer(vault, buffers, board, head, request, failures.as_slice()) {
        Ok(sent) => Ok(sent),
        Err(_) => Err(HandlerFault::Link),
    }
}

/// Carries out a request, in any packet, and sends the reports that answer it. The moment is below
/// 2^48.
pub(crate) fn answer_request<B: Board>(
    alloc: Global,
    vault: &mut Vault,
    buffers: &mut Buffers,
    board: &mut B,
    moment: u64,
    packet: PacketView<'_>,
) -> Result<Sent, HandlerFault>
    requires ready { IsReady vault.old }
    requires board { IsBoardOf B.means vault.old board.old }
    requires moment { moment < 2 ^ 48 }
    ensures answers { Answers B.means board.old board.new (handler_of vault.old true)
        (handler_of vault.new (is_ok result))
        (λ number table. answer vault.old.blocks number moment (octets_of packet.entry) table) result }
    ensures ready { OnOk result (IsReady vault.new) }
    ensures work { WorksWithin 0
        (if_short vault.old.journal.room 85 + 5) (if_short vault.old.journal.room 7)
        (if_short vault.old.journal.room 13 + 2)
        (B.means.counts board.old) (B.means.counts board.new) }
{
    let identifier = identifier_of(packet);
    match judge(packet) {
        Ok(judged) => {
            let request = Carried {
                identifier,
                acks: judged.acks,
                items: judged.items,
            };
            carry_out_request(alloc, vault, buffers, board, moment, &request)
        }
        Err(refused) => refuse(vault, buffers, board, moment, identifier, refused),
    }
}
