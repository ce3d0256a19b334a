// Laws on a vault that stands for a table.
ghost use Rattle.std.specs.Prelude.{◌≡◌, ℕ, Bool, List, Some, true};
ghost use Rattle.block_pool.specs.Blocks.{is_free};
ghost use Rattle.board.specs.Flash.{Flash, IsContent, IsImage, loosened, pages_of_block};
ghost use Rattle.board.specs.Touches.{KeptElsewhere};
ghost use Rattle.image_table.specs.Standing.{Beside, HoldsTable};
ghost use Rattle.meta_journal.specs.Journals.{HoldsEither};
ghost use Rattle.meta_journal.specs.Standing.{StandsFor as JournalStandsFor};
ghost use Rattle.pst_model.specs.Table.{Table};
ghost use Rattle.record_view.specs.Records.{Meaning};
ghost use Rattle.record_view.specs.declared.link.Link.{Link};
ghost use Rattle.store_directory.specs.Changes.{Swap, apply};
ghost use Rattle.store_directory.specs.Checkpoints.{is_lawful};
ghost use Rattle.store_directory.specs.Directory.{Directory, Listed, find_store};
ghost use Rattle.store_load.specs.Claims.{may_share};
ghost use Rattle.store_load.specs.Moving.{SpellsLast};
ghost use Rattle.vault.specs.Changing.{IsKept, journal_pages};
ghost use Rattle.vault.specs.Memory.{InMemory, IsSound};
ghost use Rattle.vault.specs.Standing.{StandsFor};

/// Each image that a stop leaves of a flash for which a vault stands holds its table.
pub fn images_hold_the_table()
    ensures { (vault : InMemory) (flash : Flash) (table : Table) (image : ℕ → List ℕ)
        → IsSound vault → StandsFor vault flash table → IsImage vault.blocks flash image
        → HoldsTable vault.blocks table image }
{}

/// A vault stands for one table at most.
pub fn tables_are_one()
    ensures { (vault : InMemory) (flash : Flash) (table other : Table)
        → StandsFor vault flash table → StandsFor vault flash other → other ≡ table }
{}

/// The pages of a free block are none that the table is read from. So whatever is done to them
/// changes no table.
pub fn free_blocks_are_beside_the_table()
    ensures { (vault : InMemory) (flash : Flash) (block : ℕ)
        → IsContent vault.blocks flash.content → IsSound vault
        → is_free vault.pool block ≡ true
        → Beside flash vault.directory.directory (pages_of_block block) }
{}

/// What was fetched, and whether the vault is open, are nothing of what it stands for.
pub fn fetches_keep_the_table()
    ensures { (vault : InMemory) (flash : Flash) (table : Table) (held : Meaning) (is_open : Bool)
        → StandsFor vault flash table
        → StandsFor (record vault { held = held; is_open = is_open }) flash table }
{}

/// While a free block is written, each image holds the table, and afterwards the flash still holds
/// the directory and the journal.
pub fn copies_in_free_blocks_keep_the_table()
    ensures images { (vault : InMemory) (flash : Flash) (table : Table) (block : ℕ)
        (image : ℕ → List ℕ) → IsSound vault → StandsFor vault flash table
        → is_free vault.pool block ≡ true
        → IsImage vault.blocks (loosened (pages_of_block block) flash) image
        → HoldsTable vault.blocks table image }
    ensures kept { (vault : InMemory) (flash copied : Flash) (table : Table) (block : ℕ)
        → IsSound vault → StandsFor vault flash table → is_free vault.pool block ≡ true
        → KeptElsewhere (pages_of_block block) flash copied
        → IsContent vault.blocks copied.content
        → IsKept vault.blocks vault.directory.directory copied }
    ensures journal { (vault : InMemory) (flash copied : Flash) (table : Table) (block : ℕ)
        → IsSound vault → StandsFor vault flash table → is_free vault.pool block ≡ true
        → KeptElsewhere (pages_of_block block) flash copied
        → IsContent vault.blocks copied.content
        → JournalStandsFor vault.journal copied }
{}

/// If the live records of a store's last block were copied to a free block, each image holds the
/// table while the entry is added that names the new block, also while the copies are loose.
pub fn renewed_blocks_keep_the_table()
    ensures { (vault : InMemory) (flash copied : Flash) (table : Table) (identifier : ℕ)
        (s : Listed) (new : Link) (next : Directory) (image : ℕ → List ℕ)
        → IsSound vault → StandsFor vault flash table → is_free vault.pool new.block ≡ true
        → KeptElsewhere (pages_of_block new.block) flash copied
        → IsContent vault.blocks copied.content
        → find_store identifier vault.directory.stores ≡ Some s
        → apply vault.directory.directory (Swap identifier new) ≡ Some next
        → is_lawful next ≡ true → may_share 240 vault.blocks next.stores ≡ true
        → SpellsLast copied.content s.row s.links new
        → HoldsEither vault.blocks journal_pages copied vault.directory.directory next image
        → HoldsTable vault.blocks table image }
{}
