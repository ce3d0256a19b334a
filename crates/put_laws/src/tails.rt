// Laws on the last block of a store, and how many of its pages records take.
ghost use Rattle.std.specs.Prelude.{◌≡◌, ◌+◌, true, ℕ, List, Some, slice_get};
ghost use Rattle.board.specs.Flash.{IsContent};
ghost use Rattle.image_table.specs.Table.{in_records};
ghost use Rattle.pst_model.specs.Table.{Store, Stored, Table};
ghost use Rattle.put_laws.specs.Puts.{Accepts, Begins, SpellsBehind, SpellsFirst, Takes, Tells, last_link, listed_behind, need_of};
ghost use Rattle.put_laws.specs.Walks.{HasOffered, IsTurn};
ghost use Rattle.record_view.specs.declared.link.Link.{Link};
ghost use Rattle.store_directory.specs.Changes.{Change};
ghost use Rattle.store_directory.specs.Directory.{Directory, Listed};
ghost use Rattle.store_load.specs.Loaded.{used_in};

/// A put leaves a store its last block, in which the record takes its pages behind those in use. A
/// new block is the last one then. A refusal leaves all as it was.
pub fn last_blocks_go_on()
    ensures told { (blocks : ℕ) (image : ℕ → List ℕ) (d : Directory) (table : Table)
        (stored : Stored) (at : ℕ) (changes : List Change) (before : Directory) (s : Listed)
        (store : Store) → HasOffered blocks image d table stored at changes before
        → IsTurn d table at s store → let new = listed_behind Tells s in
        (last_link new.links ≡ last_link s.links)
        × (used_in image new.row new.links ≡ used_in image s.row s.links) }
    ensures taken { (blocks : ℕ) (image : ℕ → List ℕ) (d : Directory) (table : Table)
        (stored : Stored) (at : ℕ) (changes : List Change) (before : Directory) (s : Listed)
        (store : Store) (gone : ℕ) → HasOffered blocks image d table stored at changes before
        → IsTurn d table at s store → Accepts store stored gone → SpellsBehind image s stored
        → let new = listed_behind (Takes gone) s in
        (last_link new.links ≡ last_link s.links)
        × (used_in image new.row new.links ≡ used_in image s.row s.links + need_of stored) }
    ensures begun { (blocks : ℕ) (image : ℕ → List ℕ) (d : Directory) (table : Table)
        (stored : Stored) (at : ℕ) (changes : List Change) (before : Directory) (s : Listed)
        (store : Store) (gone : ℕ) (link : Link)
        → HasOffered blocks image d table stored at changes before
        → IsTurn d table at s store → Accepts store stored gone
        → SpellsFirst blocks image before s link stored
        → let new = listed_behind (Begins gone link) s in
        (last_link new.links ≡ Some link)
        × (used_in image new.row new.links ≡ need_of stored) }
{}

/// The pages that a store's last block has in use are the same on each image that has the pages of
/// the table's records.
pub fn last_blocks_stay_beside()
    ensures { (blocks : ℕ) (image other : ℕ → List ℕ) (d : Directory) (table : Table)
        (stored : Stored) (at place : ℕ) (changes : List Change) (next : Directory) (s : Listed)
        → HasOffered blocks image d table stored at changes next → IsContent blocks other
        → ((p : ℕ) → in_records image p next ≡ true → other p ≡ image p)
        → slice_get next.stores place ≡ Some s
        → used_in other s.row s.links ≡ used_in image s.row s.links }
{}
