// What holds of the table's rules.
ghost use Rattle.std.specs.Prelude.{◌≡◌, ◌<◌, ◌≤◌, ◌+◌, ◌∷◌, ◌++◌, ℕ, List, All, Err, false, length};
ghost use Rattle.control_defs.specs.declared.instructions.Instruction.{Instruction};
ghost use Rattle.control_defs.specs.declared.instructions.StoreKind.TheVariants.{Circular};
ghost use Rattle.pst_model.specs.Answers.{carry_out_from, failed_first};
ghost use Rattle.pst_model.specs.Command.{Command};
ghost use Rattle.pst_model.specs.Instructions.{instruct};
ghost use Rattle.pst_model.specs.Laws.{IsWithin, replies_in};
ghost use Rattle.pst_model.specs.Least.{IsLeast};
ghost use Rattle.pst_model.specs.Reports.{count_behind};
ghost use Rattle.pst_model.specs.Rules.{has_room, is_refused, to_drop};
ghost use Rattle.pst_model.specs.Run.{run_from, step};
ghost use Rattle.pst_model.specs.Table.{Store, Table};

/// A run of some commands and then others is the run of the first ones, and behind it that of the
/// others, whose numbers go on.
pub fn runs_in_turn()
    ensures table { (blocks number : ℕ) (table : Table) (a b : List Command)
        → (run_from blocks number table (a ++ b)).table
        ≡ (run_from blocks (number + length a) (run_from blocks number table a).table b).table }
    ensures outputs { (blocks number : ℕ) (table : Table) (a b : List Command)
        → (run_from blocks number table (a ++ b)).outputs
        ≡ (run_from blocks number table a).outputs
        ++ (run_from blocks (number + length a) (run_from blocks number table a).table b).outputs }
{}

/// The fewest packets leave the front of a store behind which there is room for so many pages.
pub fn fewest_leave()
    ensures { (store : Store) (need : ℕ) → need ≤ store.size
        → IsLeast (has_room store need) (to_drop store need) }
{}

/// A circular store refuses no packet that its size can hold.
pub fn circular_stores_refuse_only_larger()
    ensures { (store : Store) (need : ℕ) → store.kind ≡ Circular → need ≤ store.size
        → is_refused store need ≡ false }
{}

/// No command passes more packets of a store than it has.
pub fn behind_stays_within()
    ensures { (blocks number : ℕ) (command : Command) (table : Table)
        → All IsWithin table.stores → All IsWithin (step blocks number command table).table.stores }
{}

/// An instruction that fails leaves the table to those behind it as it was.
pub fn failed_instructions_change_nothing()
    ensures { (blocks number code : ℕ) (item : Instruction) (items : List Instruction) (table : Table)
        → instruct blocks item table ≡ Err code
        → carry_out_from blocks number (item ∷ items) table
        ≡ failed_first (number, code) (carry_out_from blocks (number + 1) items table) }
{}

/// Each report raises the count of reports by one, modulo 16,384.
pub fn reports_are_counted()
    ensures { (blocks number : ℕ) (command : Command) (table : Table) → table.reports < 16384
        → (step blocks number command table).table.reports
        ≡ count_behind table.reports (replies_in (step blocks number command table).outputs) }
{}
