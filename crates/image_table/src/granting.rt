// Laws on what a grant and counted reports make of a table, of its directory, and of what memory
// shows.
ghost use Rattle.std.specs.Prelude.{◌≡◌, ◌<◌, ℕ, List, Some, length, slice_get};
ghost use Rattle.board.specs.Flash.{IsContent};
ghost use Rattle.pst_model.specs.Replies.{replied};
ghost use Rattle.pst_model.specs.Reports.{Report};
ghost use Rattle.pst_model.specs.Rules.{grant, packet_at};
ghost use Rattle.pst_model.specs.Table.{Store, Table};
ghost use Rattle.record_view.specs.Records.{Meaning};
ghost use Rattle.retrieval.specs.Grants.{AreByRows};
ghost use Rattle.retrieval.specs.declared.pick.Pick.{Pick};
ghost use Rattle.store_directory.specs.Changes.{Clock, apply};
ghost use Rattle.store_directory.specs.Directory.{Directory, IsDirectory, Listed};
ghost use Rattle.store_directory.specs.declared.row.Row.{Row};
ghost use Rattle.store_load.specs.Kept.{kept_of};
ghost use Rattle.store_policy.specs.Shown.{AreAllTogether, AreShown, IsTableShown};
ghost use Rattle.store_policy.specs.declared.view.View.{View};
ghost use Rattle.time_index.specs.TimeIndex.{TimeIndex};
ghost use Rattle.image_table.specs.Granting.{Grants, Renews, counted, put_sent};
ghost use Rattle.image_table.specs.Table.{table_by, table_rule};

/// The stores of a table are those of the rows of its directory, so the pick of the rows is what a
/// grant sends. This is so of a table that stands in an image, and of one that memory shows.
pub fn tables_go_by_rows()
    ensures held { (blocks : ℕ) (image : ℕ → List ℕ) (d : Directory) (table : Table)
        → IsContent blocks image → IsDirectory d → table_by blocks image d ≡ Some table
        → AreByRows table.stores d.stores }
    ensures shown { (stores : List Store) (listed : List Listed) (indexes : List TimeIndex)
        → AreShown stores listed indexes → AreAllTogether listed indexes
        → AreByRows stores listed }
{}

/// The packet at a position of a store of the table is that of the record at this position, among
/// those that the store in the same place of the directory keeps.
pub fn packets_are_kept_records()
    ensures { (blocks : ℕ) (image : ℕ → List ℕ) (d : Directory) (table : Table) (at position : ℕ)
        (store : Store) (s : Listed) (records : List Meaning) (meaning : Meaning)
        → table_by blocks image d ≡ Some table
        → slice_get table.stores at ≡ Some store → slice_get d.stores at ≡ Some s
        → kept_of table_rule image d.now s.row s.links ≡ Some records
        → slice_get records position ≡ Some meaning
        → packet_at store position ≡ meaning.packet }
{}

/// The row that `after_sent` returns for the pick of a directory can be put into it. The next
/// directory is that of the table after the grant, whatever number the grant has. Memory that showed
/// the table before the grant shows the one after it, with the same indexes.
pub fn grants_go_on()
    ensures fits { (blocks : ℕ) (image : ℕ → List ℕ) (d : Directory) (table : Table) (pick : Pick)
        (row : Row) → Grants blocks image d table pick row
        → (next : Directory) × (apply d (put_sent pick row) ≡ Some next) }
    ensures table { (blocks : ℕ) (image : ℕ → List ℕ) (d next : Directory) (table : Table)
        (pick : Pick) (row : Row) (number : ℕ) → Grants blocks image d table pick row
        → apply d (put_sent pick row) ≡ Some next
        → table_by blocks image next ≡ Some (grant number table).table }
    ensures shown { (blocks : ℕ) (image : ℕ → List ℕ) (view after : View) (table : Table)
        (pick : Pick) (row : Row) (number : ℕ)
        → Grants blocks image view.directory.now.directory table pick row
        → Renews (put_sent pick row) view after → IsTableShown table view
        → IsTableShown (grant number table).table after }
    ensures together { (blocks : ℕ) (image : ℕ → List ℕ) (view after : View) (table : Table)
        (pick : Pick) (row : Row) → Grants blocks image view.directory.now.directory table pick row
        → Renews (put_sent pick row) view after
        → AreAllTogether view.directory.now.stores view.indexes.now
        → AreAllTogether after.directory.now.stores after.indexes.now }
{}

/// A time, and a count of reports below 16,384, can be set in a directory. Memory that showed its
/// table then shows it with this time and this count, with the same indexes.
pub fn clocks_are_shown()
    ensures fits { (d : Directory) (now reports : ℕ) → reports < 16384
        → (next : Directory) × (apply d (Clock now reports) ≡ Some next) }
    ensures shown { (view after : View) (table : Table) (now reports : ℕ)
        → Renews (Clock now reports) view after → IsTableShown table view
        → IsTableShown (record table { now = now; reports = reports }) after }
    ensures together { (view after : View) (now reports : ℕ)
        → Renews (Clock now reports) view after
        → AreAllTogether view.directory.now.stores view.indexes.now
        → AreAllTogether after.directory.now.stores after.indexes.now }
{}

/// The count after some reports can be set in a directory, at the time that it has. The next directory
/// is that of the table after these reports. Memory that showed the table before them shows the one
/// after them, with the same indexes.
pub fn counts_go_on()
    ensures fits { (d : Directory) (reports : ℕ)
        → (next : Directory) × (apply d (counted reports d) ≡ Some next) }
    ensures table { (blocks : ℕ) (image : ℕ → List ℕ) (d next : Directory) (table : Table)
        (number moment : ℕ) (reports : List Report) → table_by blocks image d ≡ Some table
        → apply d (counted (length reports) d) ≡ Some next
        → table_by blocks image next ≡ Some (replied number moment table reports).table }
    ensures shown { (view after : View) (table : Table) (number moment : ℕ)
        (reports : List Report)
        → Renews (counted (length reports) view.directory.now.directory) view after
        → IsTableShown table view
        → IsTableShown (replied number moment table reports).table after }
{}
