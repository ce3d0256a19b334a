// Laws on picks.
ghost use Rattle.std.specs.Prelude.{◌≡◌, ◌↔◌, ℕ, List, None, Some};
ghost use Rattle.pst_model.specs.Rules.{grant};
ghost use Rattle.pst_model.specs.Table.{Table};
ghost use Rattle.retrieval.specs.Grants.{AreByRows, IsRowAt, Sends, sends_nothing};
ghost use Rattle.retrieval.specs.Picks.{pick_of, sent_row};
ghost use Rattle.retrieval.specs.declared.pick.Pick.{Pick};
ghost use Rattle.store_directory.specs.Directory.{Listed};
ghost use Rattle.store_directory.specs.declared.row.Row.{Row};

/// The pick of rows is what a grant of the model sends, for every table whose stores are those of
/// the rows. A grant sends nothing if and only if there is no pick. Otherwise it sends the packet of
/// the pick, and the row of its store after that is the one that `after_sent` returns.
pub fn picks_are_granted()
    ensures none { (number : ℕ) (table : Table) (stores : List Listed) → AreByRows table.stores stores
        → (pick_of stores ≡ None) ↔ (grant number table ≡ sends_nothing table) }
    ensures some { (number : ℕ) (table : Table) (stores : List Listed) (pick : Pick) (row : Row)
        → AreByRows table.stores stores → pick_of stores ≡ Some pick → IsRowAt stores pick.at row
        → Sends number table pick (sent_row pick.range row) (grant number table) }
{}
