// Which table goes with the octets that were sent, at each step of a session.
ghost use Rattle.std.specs.Prelude.{◌≡◌, ◌≤◌, ◌<◌, ℕ, ◌+◌, List, ◌∷◌, ◌++◌, length};
ghost use Rattle.board.specs.Moments.{GainsFront};
ghost use Rattle.pst_model.specs.Command.{Command};
ghost use Rattle.pst_model.specs.Run.{lines_of, run, step};
ghost use Rattle.pst_model.specs.Table.{Table};
ghost use Rattle.turn_laws.specs.Turns.{
  IsInTurn,
  SendsInTurn,
  octets_after,
  outputs_of,
  table_after,
};

/// If the lines for the first n commands were sent and nothing else, the table after n commands is
/// in turn. So is the table after one more command, if that is durable before any of its lines is
/// sent, and it stays in turn while they are sent.
pub fn commands_in_turn()
    ensures between { (blocks : ℕ) (table : Table) (commands : List Command) (n : ℕ)
        → n ≤ length commands
        → IsInTurn blocks table commands (octets_after blocks table commands n) n }
    ensures durable { (blocks : ℕ) (table : Table) (commands : List Command) (n : ℕ)
        → n < length commands
        → IsInTurn blocks table commands (octets_after blocks table commands n) (n + 1) }
    ensures within { (blocks : ℕ) (table : Table) (commands : List Command) (n octets : ℕ)
        → n < length commands
        → octets_after blocks table commands n ≤ octets
        → octets ≤ octets_after blocks table commands (n + 1)
        → IsInTurn blocks table commands octets (n + 1) }
{}

/// The same in octets: what was sent before, then the lines for the commands done, then a prefix of
/// the lines for the next command.
pub fn sends_in_turn()
    ensures between { (blocks : ℕ) (table : Table) (done others : List Command) (before : List ℕ)
        → SendsInTurn blocks table (done ++ others) before
        (before ++ lines_of (outputs_of blocks table done)) (length done) }
    ensures durable { (blocks : ℕ) (table : Table) (done others : List Command) (command : Command)
        (before : List ℕ)
        → SendsInTurn blocks table (done ++ command ∷ others) before
        (before ++ lines_of (outputs_of blocks table done)) (length done + 1) }
    ensures within { (blocks : ℕ) (table : Table) (done others : List Command) (command : Command)
        (before octets : List ℕ)
        → GainsFront (before ++ lines_of (outputs_of blocks table done))
        (lines_of (step blocks (length done + 1) command (run blocks table done).table).outputs)
        octets
        → SendsInTurn blocks table (done ++ command ∷ others) before octets (length done + 1) }
{}

/// What is in turn stays so when more commands are read, and the table is the same.
pub fn turns_stand_behind_more()
    ensures turn { (blocks : ℕ) (table : Table) (commands more : List Command) (octets kept : ℕ)
        → octets ≤ length (lines_of (outputs_of blocks table commands))
        → IsInTurn blocks table commands octets kept
        → IsInTurn blocks table (commands ++ more) octets kept }
    ensures sends { (blocks : ℕ) (table : Table) (commands more : List Command)
        (before octets : List ℕ) (kept : ℕ)
        → SendsInTurn blocks table commands before octets kept
        → SendsInTurn blocks table (commands ++ more) before octets kept }
    ensures table { (blocks : ℕ) (table : Table) (commands more : List Command) (kept : ℕ)
        → kept ≤ length commands
        → table_after blocks table (commands ++ more) kept ≡ table_after blocks table commands kept }
{}

/// The table after the commands done, and after the next one, in a longer list of commands. The
/// number of the next command may be any.
pub fn tables_in_turn()
    ensures done { (blocks : ℕ) (table : Table) (done others : List Command)
        → table_after blocks table (done ++ others) (length done) ≡ (run blocks table done).table }
    ensures next { (blocks number : ℕ) (table : Table) (done others : List Command)
        (command : Command)
        → table_after blocks table (done ++ command ∷ others) (length done + 1)
        ≡ (step blocks number command (run blocks table done).table).table }
{}
