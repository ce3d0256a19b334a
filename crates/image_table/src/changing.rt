// Laws on the table behind a change of its directory.
ghost use Rattle.std.specs.Prelude.{◌≡◌, ◌≤◌, ◌+◌, ◌∷◌, ℕ, List, [], Some, drop, find, length};
ghost use Rattle.space_packet.specs.Charge.{charge_of};
ghost use Rattle.chain_log.specs.Pages.{block_octets};
ghost use Rattle.pst_model.specs.Changes.{is_named};
ghost use Rattle.pst_model.specs.Table.{Store, Table, content_in};
ghost use Rattle.record_view.specs.Records.{Meaning, record_at};
ghost use Rattle.record_view.specs.declared.link.Link.{Link};
ghost use Rattle.store_directory.specs.Changes.{Clock, Links, Put, Swap, apply};
ghost use Rattle.store_directory.specs.Directory.{Directory, Listed, find_store};
ghost use Rattle.store_directory.specs.declared.row.Row.{Row};
ghost use Rattle.store_load.specs.Extents.{end_of, last_of};
ghost use Rattle.store_load.specs.Moving.{GoesOn, IsNext, SpellsLast, used_by};
ghost use Rattle.image_table.specs.Going.{Begins, Changes, table_put};
ghost use Rattle.image_table.specs.Table.{stored_of, table_by, table_rule};

/// A later time leaves all packets as they are.
pub fn clocks_go_on()
    ensures { (blocks : ℕ) (image : ℕ → List ℕ) (d : Directory) (table : Table) (now reports : ℕ)
        (next : Directory)
        → table_by blocks image d ≡ Some table → apply d (Clock now reports) ≡ Some next
        → d.now ≤ now
        → table_by blocks image next
        ≡ Some (record table { now = now; reports = reports }) }
{}

/// A row with a later first number takes its store's first packets away, whatever links are
/// trimmed with them.
pub fn fronts_leave_the_table()
    ensures { (blocks : ℕ) (image : ℕ → List ℕ) (d next : Directory) (table : Table) (row : Row)
        (s : Listed) (gone : ℕ)
        → Changes blocks image d table (Put row) next → find_store row.identifier d.stores ≡ Some s
        → GoesOn gone 0 s.row row
        → ((store : Store) → find (is_named row.identifier) table.stores ≡ Some store
        → content_in (drop gone store.packets) ≤ row.size)
        → table_by blocks image next ≡ Some (table_put row gone [] table) }
{}

/// A row that counts the record that is spelled behind its store's last one puts that packet last,
/// whether or not the front goes.
pub fn records_enter_the_table()
    ensures { (blocks : ℕ) (image : ℕ → List ℕ) (d next : Directory) (table : Table) (row : Row)
        (s : Listed) (gone : ℕ) (link : Link) (links : List Link) (meaning : Meaning)
        → Changes blocks image d table (Put row) next → find_store row.identifier d.stores ≡ Some s
        → s.links ≡ link ∷ links → GoesOn gone 1 s.row row
        → record_at (block_octets image (last_of link links).block) (end_of s.row)
        (used_by image s.row link links) ≡ Some meaning
        → IsNext table_rule d.now d.now meaning
        → ((store : Store) → find (is_named row.identifier) table.stores ≡ Some store
        → content_in (drop gone store.packets) + charge_of (length meaning.packet) ≤ row.size)
        → table_by blocks image next
        ≡ Some (table_put row gone (stored_of meaning ∷ []) table) }
{}

/// A store without packets gets a first block with the record that is spelled at its front. A new
/// block behind a last one that is full enough leaves the table as it is.
pub fn new_blocks_enter_the_directory()
    ensures first { (blocks : ℕ) (image : ℕ → List ℕ) (d next : Directory) (table : Table)
        (s : Listed) (link : Link) (row : Row) (meaning : Meaning)
        → Begins blocks image d table link row next
        → find_store row.identifier d.stores ≡ Some s → s.links ≡ []
        → record_at (block_octets image link.block) row.first 0 ≡ Some meaning
        → meaning.stamp ≤ d.now → length meaning.packet ≤ 4096
        → charge_of (length meaning.packet) ≤ row.size
        → table_by blocks image next ≡ Some (table_put row 0 (stored_of meaning ∷ []) table) }
    ensures further { (blocks : ℕ) (image : ℕ → List ℕ) (d next : Directory) (table : Table)
        (identifier : ℕ) (s : Listed) (link new : Link) (links : List Link)
        → Changes blocks image d table (Links identifier (new ∷ [])) next
        → find_store identifier d.stores ≡ Some s → s.links ≡ link ∷ links
        → new.first ≡ end_of s.row → 240 ≤ used_by image s.row link links
        → table_by blocks image next ≡ Some table }
{}

/// Another last block that spells the live records of the old one leaves the table as it is.
pub fn renewed_blocks_keep_the_table()
    ensures { (blocks : ℕ) (image : ℕ → List ℕ) (d next : Directory) (table : Table)
        (identifier : ℕ) (s : Listed) (new : Link)
        → Changes blocks image d table (Swap identifier new) next
        → find_store identifier d.stores ≡ Some s → SpellsLast image s.row s.links new
        → table_by blocks image next ≡ Some table }
{}
