// What a store's moves tell of it.
ghost use Rattle.std.specs.Prelude.{◌≡◌, ℕ, List};
ghost use Rattle.pst_model.specs.Answers.{refusal_of};
ghost use Rattle.pst_model.specs.Command.{Command, Grant};
ghost use Rattle.pst_model.specs.Laws.{AreDistinct, identifiers};
ghost use Rattle.pst_model.specs.Run.{run_from};
ghost use Rattle.pst_model.specs.Table.{Table};
ghost use Rattle.pst_laws.specs.Grants.{IsGranted};
ghost use Rattle.pst_laws.specs.Moves.{Judge, moves_along, moves_of, run_by, step_by};
ghost use Rattle.pst_laws.specs.Places.{MovedAlong, MovedBy, place_of};

/// The moves of a command, and those along a list of commands, lead from where the retrievals of a
/// store stand before to where they stand behind, and send the packet whose turn it is.
pub fn moves_tell_the_places()
    ensures command { (judge : Judge) (blocks number identifier : ℕ) (command : Command) (table : Table)
        → MovedBy (moves_of judge blocks identifier command table) (place_of identifier table)
        (place_of identifier (step_by judge blocks number command table).table) }
    ensures run { (judge : Judge) (blocks number identifier : ℕ) (table : Table) (commands : List Command)
        → MovedAlong (moves_along judge blocks number identifier table commands)
        (place_of identifier table)
        (place_of identifier (run_by judge blocks number table commands).table) }
{}

/// Where requests are refused as the model does, a run is that of the model.
pub fn runs_are_those_of_the_model()
    ensures { (blocks number : ℕ) (table : Table) (commands : List Command)
        → run_by refusal_of blocks number table commands ≡ run_from blocks number table commands }
{}

/// What goes out on a grant is the packet at the position that the moves of one store tell, and
/// nothing where no store has a move.
pub fn grants_send_what_the_moves_tell()
    ensures { (judge : Judge) (blocks number moment : ℕ) (table : Table)
        → AreDistinct (identifiers table.stores)
        → IsGranted number table
        (λ identifier. moves_of judge blocks identifier (Grant moment) table)
        (step_by judge blocks number (Grant moment) table).outputs }
{}
