// What sessions leave that are stopped, one after another.
ghost use Rattle.std.specs.Prelude.{◌≡◌, ℕ, All, List, ◌++◌, flat_map};
ghost use Rattle.pst_model.specs.Command.{Command};
ghost use Rattle.pst_model.specs.Run.{run, run_from};
ghost use Rattle.pst_model.specs.Table.{Table};
ghost use Rattle.turn_laws.specs.Sessions.{KeepsAcknowledged, LeavesTables, Session, kept_of};

/// The table after commands does not depend on their numbers. So the table after some commands and
/// then others is the one after all of them.
pub fn runs_follow()
    ensures numbers { (blocks number other : ℕ) (table : Table) (commands : List Command)
        → (run_from blocks number table commands).table
        ≡ (run_from blocks other table commands).table }
    ensures tables { (blocks : ℕ) (table : Table) (first second : List Command)
        → (run blocks table (first ++ second)).table
        ≡ (run blocks (run blocks table first).table second).table }
{}

/// The table that sessions leave in the end is the one after all commands that they kept, one
/// session's after the other's. Each of them kept what it acknowledged.
pub fn sessions_follow()
    ensures table { (blocks : ℕ) (table : Table) (sessions : List Session) (last : Table)
        → LeavesTables blocks table sessions last
        → last ≡ (run blocks table (flat_map kept_of sessions)).table }
    ensures acknowledged { (blocks : ℕ) (table : Table) (sessions : List Session) (last : Table)
        → LeavesTables blocks table sessions last
        → All (KeepsAcknowledged blocks) sessions }
{}
