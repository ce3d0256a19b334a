// In which order retrievals send.
ghost use Rattle.std.specs.Prelude.{ℕ, All, List};
ghost use Rattle.pst_model.specs.Command.{Command};
ghost use Rattle.pst_model.specs.Laws.{IsRanged};
ghost use Rattle.pst_model.specs.Table.{Table};
ghost use Rattle.pst_laws.specs.Kept.{IsNumberedAt, IsOpenKept, IsRangeKept};
ghost use Rattle.pst_laws.specs.Moves.{Judge, moves_along, run_by};
ghost use Rattle.pst_laws.specs.Places.{place_of};
ghost use Rattle.pst_laws.specs.Trails.{follow_all, trail_at};

/// A packet keeps its number as long as it is in a store: that of its position, and of the packets
/// that left the front before.
pub fn packets_keep_their_numbers()
    ensures { (judge : Judge) (blocks number identifier : ℕ) (table : Table) (commands : List Command)
        → IsNumberedAt
        (follow_all (moves_along judge blocks number identifier table commands)
        (trail_at (place_of identifier table)))
        (place_of identifier (run_by judge blocks number table commands).table) }
{}

/// The packets that a range retrieval sends have strictly rising numbers, all among those selected
/// at its start. As long as it is not aborted, each selected packet was sent, or left the front
/// before its turn, or is still ahead. A list of commands may end anywhere, so this holds of each
/// range of a store as long as no other one is started.
pub fn ranges_send_in_order()
    ensures { (judge : Judge) (blocks number identifier : ℕ) (table : Table) (commands : List Command)
        → All IsRanged table.stores
        → IsRangeKept
        (follow_all (moves_along judge blocks number identifier table commands)
        (trail_at (place_of identifier table)))
        (place_of identifier (run_by judge blocks number table commands).table) }
{}

/// The packets that open retrieval sends have strictly rising numbers, as long as it is not set to a
/// time. Each number that it passes over belongs to a packet that left the front before its turn.
pub fn open_retrievals_send_in_order()
    ensures { (judge : Judge) (blocks number identifier : ℕ) (table : Table) (commands : List Command)
        → IsOpenKept
        (follow_all (moves_along judge blocks number identifier table commands)
        (trail_at (place_of identifier table)))
        (place_of identifier (run_by judge blocks number table commands).table) }
{}
