// Laws on the table that an image holds.
ghost use Rattle.std.specs.Prelude.{◌≡◌, ◌≤◌, ◌<◌, ℕ, Bool, false, List, Some};
ghost use Rattle.board.specs.Flash.{Flash, IsContent, IsImage, loosened};
ghost use Rattle.board.specs.Touches.{KeptElsewhere};
ghost use Rattle.meta_journal.specs.Journals.{HoldsEither};
ghost use Rattle.pst_model.specs.Table.{Table};
ghost use Rattle.root_vote.specs.declared.root.Root.{Root};
ghost use Rattle.store_directory.specs.Directory.{Directory};
ghost use Rattle.image_table.specs.Standing.{Beside, HoldsEitherTable, HoldsTable, StandsFor};
ghost use Rattle.image_table.specs.Table.{SameFrame, table_by, table_of};

/// An image that agrees with another one on all that its table is read from holds that table.
/// Whatever is done to other pages changes no table.
pub fn tables_are_read_from_their_frame()
    ensures { (blocks : ℕ) (image other : ℕ → List ℕ) (table : Table)
        → IsContent blocks image → IsContent blocks other → SameFrame blocks image other
        → table_of blocks image ≡ Some table → table_of blocks other ≡ Some table }
{}

/// Each image of a flash that stands for a table holds that table.
pub fn images_hold_the_table()
    ensures { (blocks : ℕ) (root : Root) (d : Directory) (at : ℕ) (table : Table) (flash : Flash)
        (image : ℕ → List ℕ) → 16 ≤ blocks → at ≤ 512
        → StandsFor blocks root d at table flash → IsImage blocks flash image
        → HoldsTable blocks table image }
{}

/// While pages are written or erased that the table is not read from, each image holds the table,
/// and afterwards the flash stands for it still.
pub fn steps_beside_keep_the_table()
    ensures held { (blocks : ℕ) (root : Root) (d : Directory) (at : ℕ) (table : Table)
        (flash : Flash) (these : ℕ → Bool) (image : ℕ → List ℕ) → 16 ≤ blocks → at ≤ 512
        → StandsFor blocks root d at table flash → Beside flash d these
        → IsImage blocks (loosened these flash) image → HoldsTable blocks table image }
    ensures stands { (blocks : ℕ) (root : Root) (d : Directory) (at : ℕ) (table : Table)
        (flash new : Flash) (these : ℕ → Bool) → 16 ≤ blocks → at ≤ 512
        → StandsFor blocks root d at table flash → Beside flash d these
        → KeptElsewhere these flash new → IsContent blocks new.content
        → StandsFor blocks root d at table new }
{}

/// While pages of the journal are written, each image that holds the directory from before holds
/// the table, and each that holds the one behind holds the table whose records stand in the flash,
/// also where these had been loose until then.
pub fn commits_change_one_table()
    ensures { (blocks : ℕ) (root : Root) (d next : Directory) (at : ℕ) (table after : Table)
        (flash : Flash) (these : ℕ → Bool) (image : ℕ → List ℕ)
        → StandsFor blocks root d at table flash
        → ((p : ℕ) → 1792 ≤ p → these p ≡ false)
        → table_by blocks flash.content next ≡ Some after
        → HoldsEither blocks these flash d next image
        → HoldsEitherTable blocks table after image }
{}
