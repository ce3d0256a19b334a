// Laws on the number of reports of an arrival.
ghost use Rattle.std.specs.Prelude.{◌≡◌, ◌≤◌, ◌+◌, false, true, ℕ, Some, length, slice_get};
ghost use Rattle.pst_model.specs.Arrivals.{is_offered};
ghost use Rattle.pst_model.specs.Reports.{count_behind};
ghost use Rattle.pst_model.specs.Table.{Store, Stored, Table};
ghost use Rattle.put_laws.specs.Puts.{Accepts, Refuses};
ghost use Rattle.put_laws.specs.Walks.{reports_behind, reports_up_to};

/// Each store that refuses the packet, and has not told a refusal, makes one report, and no other
/// store makes any.
pub fn refusals_are_counted()
    ensures unoffered { (stored : Stored) (at : ℕ) (table : Table) (store : Store)
        → slice_get table.stores at ≡ Some store → is_offered stored.octets store ≡ false
        → reports_up_to stored (at + 1) table ≡ reports_up_to stored at table }
    ensures taken { (stored : Stored) (at : ℕ) (table : Table) (store : Store) (gone : ℕ)
        → slice_get table.stores at ≡ Some store → Accepts store stored gone
        → reports_up_to stored (at + 1) table ≡ reports_up_to stored at table }
    ensures told { (stored : Stored) (at : ℕ) (table : Table) (store : Store)
        → slice_get table.stores at ≡ Some store → Refuses store stored → store.told ≡ true
        → reports_up_to stored (at + 1) table ≡ reports_up_to stored at table }
    ensures tells { (stored : Stored) (at : ℕ) (table : Table) (store : Store)
        → slice_get table.stores at ≡ Some store → Refuses store stored → store.told ≡ false
        → reports_up_to stored (at + 1) table ≡ reports_up_to stored at table + 1 }
    ensures all { (stored : Stored) (at : ℕ) (table : Table) → length table.stores ≤ at
        → reports_behind stored table
        ≡ count_behind table.reports (reports_up_to stored at table) }
{}
