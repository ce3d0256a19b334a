// Laws on the pages that a put writes: no record of the table is read from them.
ghost use Rattle.std.specs.Prelude.{◌≡◌, ◌≤◌, ◌+◌, ◌*◌, ◌∷◌, false, true, ℕ, List, Some, slice_get};
ghost use Rattle.board.specs.Flash.{IsContent, pages_from, pages_of_block};
ghost use Rattle.image_table.specs.Table.{in_records, table_by};
ghost use Rattle.pst_model.specs.Table.{Table};
ghost use Rattle.put_laws.specs.Puts.{is_unnamed};
ghost use Rattle.record_view.specs.declared.link.Link.{Link};
ghost use Rattle.store_directory.specs.Directory.{Directory, Listed};
ghost use Rattle.store_load.specs.Extents.{last_of};
ghost use Rattle.store_load.specs.Moving.{used_by};

/// No record lies in a block that no store names, nor in a store's last block behind its last
/// record.
pub fn records_lie_before_new_pages()
    ensures unnamed { (blocks : ℕ) (image : ℕ → List ℕ) (d : Directory) (table : Table)
        (block p : ℕ) → IsContent blocks image → table_by blocks image d ≡ Some table
        → is_unnamed block d ≡ true → pages_of_block block p ≡ true
        → in_records image p d ≡ false }
    ensures behind { (blocks : ℕ) (image : ℕ → List ℕ) (d : Directory) (table : Table) (at : ℕ)
        (s : Listed) (link : Link) (links : List Link) (pages p : ℕ) → IsContent blocks image
        → table_by blocks image d ≡ Some table → slice_get d.stores at ≡ Some s
        → s.links ≡ link ∷ links → used_by image s.row link links + pages ≤ 256
        → pages_from (256 * (last_of link links).block + used_by image s.row link links) pages p
        ≡ true → in_records image p d ≡ false }
{}
