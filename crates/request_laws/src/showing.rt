// Laws on the table that an image holds, and that memory shows, while a request's instructions are
// carried out.
ghost use Rattle.std.specs.Prelude.{◌≡◌, ℕ, List, Some, length};
ghost use Rattle.board.specs.Flash.{IsContent};
ghost use Rattle.control_defs.specs.declared.instructions.Instruction.{Instruction};
ghost use Rattle.image_table.specs.Table.{table_by};
ghost use Rattle.pst_model.specs.Table.{Table};
ghost use Rattle.store_directory.specs.Changes.{Change};
ghost use Rattle.store_directory.specs.Directory.{Directory};
ghost use Rattle.store_policy.specs.Shown.{IsTableShown};
ghost use Rattle.store_policy.specs.declared.view.View.{View};
ghost use Rattle.time_index.specs.TimeIndex.{TimeIndex};
ghost use Rattle.request_laws.specs.Carrying.{HasCarried, HasEnded, IsViewWith, carried_up_to};
ghost use Rattle.request_laws.specs.Counting.{table_behind};

/// An image that holds a table holds by the last directory the table behind the request. That it
/// holds by each directory on the way what the instructions make of it, the walk itself says.
pub fn carried_tables_are_held()
    ensures { (blocks acks : ℕ) (image : ℕ → List ℕ) (d : Directory) (table : Table)
        (items : List Instruction) (changes : List Change) (next : Directory)
        (indexes : List TimeIndex) → IsContent blocks image → table_by blocks image d ≡ Some table
        → HasCarried blocks d table items (length items) changes next indexes
        → (ended : HasEnded blocks d table acks items changes next)
        → table_by blocks image ended.last ≡ Some (table_behind blocks acks items table) }
{}

/// Memory with the next directory and its indexes shows what the instructions make of a table, and
/// with the last one the table behind the request.
pub fn carried_tables_are_shown()
    ensures so_far { (blocks : ℕ) (d : Directory) (table : Table) (items : List Instruction)
        (at : ℕ) (changes : List Change) (next : Directory) (indexes : List TimeIndex)
        (view : View) → HasCarried blocks d table items at changes next indexes
        → IsViewWith next indexes view
        → IsTableShown (carried_up_to blocks items at table).table view }
    ensures behind { (blocks acks : ℕ) (d : Directory) (table : Table)
        (items : List Instruction) (changes : List Change) (next : Directory)
        (indexes : List TimeIndex) (view : View)
        → HasCarried blocks d table items (length items) changes next indexes
        → (ended : HasEnded blocks d table acks items changes next)
        → IsViewWith ended.last indexes view
        → IsTableShown (table_behind blocks acks items table) view }
{}
