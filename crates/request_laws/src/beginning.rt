// Laws on a table and its directory, before a request.
ghost use Rattle.std.specs.Prelude.{◌≡◌, ℕ, All, List, [], Some, false, true};
ghost use Rattle.control_defs.specs.declared.instructions.Instruction.{Instruction};
ghost use Rattle.image_table.specs.Table.{table_by};
ghost use Rattle.pst_model.specs.Answers.{is_pending};
ghost use Rattle.pst_model.specs.Requests.{AreAsked};
ghost use Rattle.pst_model.specs.Table.{Table};
ghost use Rattle.store_directory.specs.Directory.{Directory, IsDirectory};
ghost use Rattle.store_load.specs.Claims.{may_share};
ghost use Rattle.time_index.specs.TimeIndex.{TimeIndex};
ghost use Rattle.store_policy.specs.Shown.{AreAllTogether, IsTableShown};
ghost use Rattle.store_policy.specs.declared.view.View.{View};
ghost use Rattle.request_laws.specs.Carrying.{HasCarried};
ghost use Rattle.request_laws.specs.Changing.{BeginsWell, HasIndexes, IsTableOf};
ghost use Rattle.request_laws.specs.Counting.{CanBeCarried};

/// A table that an image holds by a directory, and one that memory shows by its directory, is the
/// table of this directory. Each store of a directory that has a table begins well.
pub fn directories_are_of_tables()
    ensures held { (blocks : ℕ) (image : ℕ → List ℕ) (d : Directory) (table : Table)
        → table_by blocks image d ≡ Some table → IsTableOf table d }
    ensures begins { (blocks : ℕ) (image : ℕ → List ℕ) (d : Directory) (table : Table)
        → table_by blocks image d ≡ Some table → All BeginsWell d.stores }
    ensures shown { (table : Table) (view : View) → IsTableShown table view
        → IsTableOf table view.directory.now.directory }
{}

/// Memory shows at least one table, whatever a board's flash holds.
pub fn views_show_a_table()
    ensures { (view : View) → AreAllTogether view.directory.now.stores view.indexes.now
        → (table : Table) × IsTableShown table view }
{}

/// A table that memory shows has the indexes that lie in memory.
pub fn shown_tables_have_indexes()
    ensures { (table : Table) (view : View) → IsTableShown table view
        → AreAllTogether view.directory.now.stores view.indexes.now
        → HasIndexes table view.directory.now.directory view.indexes.now }
{}

/// Before the first instruction nothing is changed.
pub fn requests_begin()
    ensures { (blocks : ℕ) (d : Directory) (table : Table) (items : List Instruction)
        (indexes : List TimeIndex) → IsDirectory d → may_share 240 blocks d.stores ≡ true
        → IsTableOf table d → HasIndexes table d indexes
        → HasCarried blocks d table items 0 [] d indexes }
{}

/// The instructions of a request of a kind that is carried out can be carried out.
pub fn requests_can_be_carried()
    ensures { (service subtype : ℕ) (items : List Instruction) → AreAsked service subtype items
        → is_pending service subtype ≡ false → CanBeCarried items }
{}
