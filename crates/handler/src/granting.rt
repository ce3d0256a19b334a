// A grant: the next packet of retrieval is counted as sent, and then it is sent.
ghost use Rattle.std.specs.Prelude.{◌≡◌, ◌≤◌, ◌+◌, ℕ, None, OnOk, Some, is_ok, true};
ghost use Rattle.handler.specs.Carrying.{Answers, IsBoardOf, IsReady, handler_of};
ghost use Rattle.handler.specs.Working.{WorksWithin, pages_retrieved};
ghost use Rattle.pst_model.specs.Rules.{grant};
ghost use Rattle.pst_model.specs.Table.{Table};
ghost use Rattle.retrieval.specs.Picks.{pick_of};
ghost use Rattle.retrieval.specs.declared.pick.Pick.{Pick};
ghost use Rattle.vault.specs.Changing.{RoomAfter, if_short};
ghost use Rattle.vault.specs.Granting.{charge_next};
ghost use Rattle.vault.specs.Standing.{StandsFor};

use crate::fault::{HandlerFault, fault_of};
use board::Board;
use report_lines::{Buffers, Sent};
use vault::Vault;

/// Goes past the packet that the next grant sends, if there is one, and sends it.
pub(crate) fn send_next<B: Board>(
    vault: &mut Vault,
    buffers: &mut Buffers,
    board: &mut B,
) -> Result<Sent, HandlerFault>
    requires ready { IsReady vault.old }
    requires board { IsBoardOf B.means vault.old board.old }
    ensures answers { Answers B.means board.old board.new (handler_of vault.old true)
        (handler_of vault.new (is_ok result)) (λ number table. grant number table) result }
    ensures ready { OnOk result (IsReady vault.new) }
    ensures work { WorksWithin (charge_next vault.old)
        (if_short vault.old.journal.room 85 + 2) (if_short vault.old.journal.room 7)
        (if_short vault.old.journal.room 13 + 2)
        (B.means.counts board.old) (B.means.counts board.new) }
    ensures reads { (table : Table) (number : ℕ)
        → StandsFor vault.old (B.means.flash board.old) table
        → charge_next vault.old ≤ pages_retrieved (grant number table).outputs }
    ensures room { OnOk result ((pick : Pick)
        → pick_of vault.old.directory.stores ≡ Some pick
        → RoomAfter 2 vault.old.journal.room vault.new.journal.room) }
    ensures nothing { pick_of vault.old.directory.stores ≡ None
        → (board.new ≡ board.old) × (vault.new ≡ vault.old) }
    ensures lasts { vault.new.lasts ≡ vault.old.lasts }
{
    let next = match vault.grant(board) {
        Ok(next) => next,
        Err(fault) => return Err(fault_of(fault)),
    };
    let Some((channel, packet)) = next else {
        return Ok(Sent::default());
    };
    match buffers.send(board, channel, packet.bytes()) {
        Ok(octets) => Ok(Sent {
            retrieved: 1,
            octets: u64::from(octets),
            ..Sent::default()
        }),
        Err(_) => Err(HandlerFault::Link),
    }
}
