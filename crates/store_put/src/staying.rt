// Laws on a walk while the record of its packet is programmed.
ghost use Rattle.std.specs.Prelude.{◌≡◌, ◌≤◌, ◌+◌, ◌*◌, ◌==◌, ◌∷◌, false, true, ℕ, List, Some, map, slice_get};
ghost use Rattle.board.specs.Flash.{Flash, IsContent, pages_from, pages_of_block};
ghost use Rattle.board.specs.Touches.{KeptElsewhere};
ghost use Rattle.pst_model.specs.Table.{Stored, Table};
ghost use Rattle.put_laws.specs.Puts.{is_unnamed};
ghost use Rattle.put_laws.specs.Walks.{HasOffered};
ghost use Rattle.record_view.specs.declared.link.Link.{Link};
ghost use Rattle.store_directory.specs.Changes.{Change};
ghost use Rattle.store_directory.specs.Directory.{Directory, Listed, is_new};
ghost use Rattle.store_load.specs.Claims.{block_of, may_share};
ghost use Rattle.store_load.specs.Extents.{last_of};
ghost use Rattle.store_load.specs.Moving.{used_by};
ghost use Rattle.store_put.specs.Staying.{StaysOn};

/// A walk stands on the flash with a record that is programmed into a block that no store names, or
/// into a store's last block behind its last record: each store keeps its index, and the pages of its
/// last block that are in use.
pub fn walks_stay_beside_new_records()
    ensures unnamed { (blocks : ℕ) (old new : Flash) (d : Directory) (table : Table)
        (stored : Stored) (at : ℕ) (changes : List Change) (next : Directory)
        → HasOffered blocks old.content d table stored at changes next
        → IsContent blocks new.content → (block : ℕ) → is_unnamed block next ≡ true
        → KeptElsewhere (pages_of_block block) old new
        → StaysOn blocks old.content new.content d table stored at changes next }
    ensures behind { (blocks : ℕ) (old new : Flash) (d : Directory) (table : Table)
        (stored : Stored) (at : ℕ) (changes : List Change) (next : Directory)
        → HasOffered blocks old.content d table stored at changes next
        → IsContent blocks new.content → (place : ℕ) (s : Listed) (link : Link)
        (links : List Link) (count : ℕ) → slice_get next.stores place ≡ Some s
        → s.links ≡ link ∷ links → used_by old.content s.row link links + count ≤ 256
        → KeptElsewhere (pages_from (256 * (last_of link links).block
        + used_by old.content s.row link links) count) old new
        → StaysOn blocks old.content new.content d table stored at changes next }
{}

/// No store names a block of another one.
pub fn stores_have_blocks_of_their_own()
    ensures { (blocks : ℕ) (stores : List Listed) (at place : ℕ) (s other : Listed) (i : ℕ)
        (link : Link) → may_share 240 blocks stores ≡ true → slice_get stores at ≡ Some s
        → slice_get stores place ≡ Some other → (place == at) ≡ false
        → slice_get s.links i ≡ Some link → is_new link.block (map block_of other.links) ≡ true }
{}
