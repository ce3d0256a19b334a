// Which commands the outputs of a run belong to.
ghost use Rattle.std.specs.Prelude.{◌≡◌, ◌≤◌, ℕ, All, AllPairs, List, length};
ghost use Rattle.pst_model.specs.Command.{Command};
ghost use Rattle.pst_model.specs.Rules.{Output};
ghost use Rattle.pst_model.specs.Run.{step};
ghost use Rattle.pst_model.specs.Table.{Table};
ghost use Rattle.turn_laws.specs.Turns.{outputs_of};

/// What goes out on a command has the command's number. So the outputs of a list of commands have
/// the numbers from 1 to their count, and these never fall.
pub fn outputs_are_numbered()
    ensures command { (blocks number : ℕ) (command : Command) (table : Table)
        → All (λ (output : Output). output.command ≡ number)
        (step blocks number command table).outputs }
    ensures range { (blocks : ℕ) (table : Table) (commands : List Command)
        → All (λ (output : Output). (1 ≤ output.command) × (output.command ≤ length commands))
        (outputs_of blocks table commands) }
    ensures order { (blocks : ℕ) (table : Table) (commands : List Command)
        → AllPairs (λ (first later : Output). first.command ≤ later.command)
        (outputs_of blocks table commands) }
{}
