// Laws on the rows and the time indexes that show a table, while a packet is offered to its stores.
ghost use Rattle.std.specs.Prelude.{◌≡◌, ◌≤◌, ◌+◌, false, ℕ, List, Some, slice_get, slice_set};
ghost use Rattle.image_table.specs.Table.{table_by};
ghost use Rattle.pst_model.specs.Arrivals.{is_offered};
ghost use Rattle.pst_model.specs.Table.{Store, Stored, Table};
ghost use Rattle.store_directory.specs.Directory.{Listed};
ghost use Rattle.store_policy.specs.Shown.{AreAllIndexed, AreAllTogether, IsTableShown};
ghost use Rattle.store_policy.specs.declared.view.View.{View};
ghost use Rattle.time_index.specs.TimeIndex.{TimeIndex};
ghost use Rattle.time_index.specs.declared.entry.Entry.{Entry};
ghost use Rattle.put_laws.specs.Indexes.{AreIndexedAt, IsEntryOf, index_behind_put};
ghost use Rattle.put_laws.specs.Puts.{Accepts, Refuses, row_behind_put, told_row};

/// The indexes of a view list the packets of the table that it shows.
pub fn shown_tables_are_indexed()
    ensures { (table : Table) (view : View) → IsTableShown table view
        → AreAllIndexed table.stores view.indexes.now }
{}

/// A store to which the packet is not offered, or which refuses it, keeps its index. The index of
/// one that takes it loses as many entries as packets leave the front, and gets the packet's entry.
pub fn indexes_go_on()
    ensures unoffered { (stored : Stored) (at : ℕ) (table : Table) (indexes : List TimeIndex)
        (store : Store) → AreIndexedAt stored at table indexes
        → slice_get table.stores at ≡ Some store → is_offered stored.octets store ≡ false
        → AreIndexedAt stored (at + 1) table indexes }
    ensures refused { (stored : Stored) (at : ℕ) (table : Table) (indexes : List TimeIndex)
        (store : Store) → AreIndexedAt stored at table indexes
        → slice_get table.stores at ≡ Some store → Refuses store stored
        → AreIndexedAt stored (at + 1) table indexes }
    ensures taken { (stored : Stored) (at : ℕ) (table : Table) (indexes : List TimeIndex)
        (store : Store) (index : TimeIndex) (gone : ℕ) (entry : Entry)
        → AreIndexedAt stored at table indexes → slice_get table.stores at ≡ Some store
        → slice_get indexes at ≡ Some index → Accepts store stored gone → IsEntryOf stored entry
        → AreIndexedAt stored (at + 1) table
        (slice_set indexes at (index_behind_put gone entry index)) }
{}

/// The rows of a directory and the indexes stay together, if a store tells a refusal, and if it takes
/// the packet.
pub fn rows_and_indexes_stay_together()
    ensures told { (listed : List Listed) (indexes : List TimeIndex) (at : ℕ) (s new : Listed)
        → AreAllTogether listed indexes → slice_get listed at ≡ Some s
        → new.row ≡ told_row s.row → AreAllTogether (slice_set listed at new) indexes }
    ensures taken { (listed : List Listed) (indexes : List TimeIndex) (at : ℕ) (s new : Listed)
        (index : TimeIndex) (gone : ℕ) (entry : Entry) → AreAllTogether listed indexes
        → slice_get listed at ≡ Some s → slice_get indexes at ≡ Some index
        → new.row ≡ row_behind_put gone s.row
        → AreAllTogether (slice_set listed at new)
        (slice_set indexes at (index_behind_put gone entry index)) }
{}

/// A view shows the table that the image holds of its directory, if its indexes list the packets.
pub fn indexed_tables_are_shown()
    ensures { (blocks : ℕ) (image : ℕ → List ℕ) (table : Table) (view : View)
        → table_by blocks image view.directory.now.directory ≡ Some table
        → AreAllIndexed table.stores view.indexes.now → IsTableShown table view }
{}
