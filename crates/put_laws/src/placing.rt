// Laws on the places of the records: the index that a store has on the image, while a packet is
// offered to one store after another.
ghost use Rattle.std.specs.Prelude.{◌≡◌, ◌≤◌, ◌==◌, false, true, ℕ, List, Some, slice_get};
ghost use Rattle.board.specs.Flash.{IsContent};
ghost use Rattle.image_table.specs.Table.{in_records, table_rule};
ghost use Rattle.pst_model.specs.Table.{Store, Stored, Table};
ghost use Rattle.record_view.specs.declared.link.Link.{Link};
ghost use Rattle.store_directory.specs.Changes.{Change, apply};
ghost use Rattle.store_directory.specs.Directory.{Directory, Listed};
ghost use Rattle.store_load.specs.Extents.{last_of};
ghost use Rattle.store_load.specs.Loaded.{index_of};
ghost use Rattle.store_load.specs.Moving.{used_by};
ghost use Rattle.time_index.specs.TimeIndex.{TimeIndex};
ghost use Rattle.put_laws.specs.Indexes.{entry_of, index_behind_put};
ghost use Rattle.put_laws.specs.Puts.{Accepts, Begins, Outcome, SpellsBehind, SpellsFirst, Stays, Takes, Tells, listed_behind};
ghost use Rattle.put_laws.specs.Walks.{HasGoneOn, HasOffered, IsTurn, clock_of};

/// The time of the directory is the packet's from the begin of a walk on. The clock leaves the
/// stores as they are, and each keeps its index.
pub fn times_are_those_of_the_packet()
    ensures now { (blocks : ℕ) (image : ℕ → List ℕ) (d : Directory) (table : Table)
        (stored : Stored) (at : ℕ) (changes : List Change) (next : Directory)
        → HasOffered blocks image d table stored at changes next → next.now ≡ stored.time }
    ensures stores { (d : Directory) (table : Table) (stored : Stored) (next : Directory)
        → apply d (clock_of stored table) ≡ Some next → next.stores ≡ d.stores }
    ensures places { (image : ℕ → List ℕ) (d : Directory) (table : Table) (stored : Stored)
        (next : Directory) (s : Listed) (index : TimeIndex)
        → apply d (clock_of stored table) ≡ Some next → d.now ≤ stored.time
        → index_of table_rule image d.now s.row s.links ≡ Some index
        → index_of table_rule image next.now s.row s.links ≡ Some index }
{}

/// A store that stays as it is or tells a refusal keeps its index, and so does each other store. The
/// index of a store that takes the packet loses as many entries as packets leave the front, and gets
/// the packet's entry: its place is the one where the record is spelled, behind the last one or at
/// the front of a new block.
pub fn places_go_on()
    ensures stays { (blocks : ℕ) (image : ℕ → List ℕ) (d : Directory) (table : Table)
        (stored : Stored) (at : ℕ) (changes : List Change) (before : Directory) (s : Listed)
        (index : TimeIndex) (goes : HasGoneOn blocks image d table stored at changes before s Stays)
        → HasOffered blocks image d table stored at changes before
        → index_of table_rule image before.now s.row s.links ≡ Some index
        → let new = listed_behind Stays s in
        index_of table_rule image goes.next.now new.row new.links ≡ Some index }
    ensures tells { (blocks : ℕ) (image : ℕ → List ℕ) (d : Directory) (table : Table)
        (stored : Stored) (at : ℕ) (changes : List Change) (before : Directory) (s : Listed)
        (store : Store) (index : TimeIndex)
        (goes : HasGoneOn blocks image d table stored at changes before s Tells)
        → HasOffered blocks image d table stored at changes before
        → IsTurn d table at s store
        → index_of table_rule image before.now s.row s.links ≡ Some index
        → let new = listed_behind Tells s in
        index_of table_rule image goes.next.now new.row new.links ≡ Some index }
    ensures takes { (blocks : ℕ) (image : ℕ → List ℕ) (d : Directory) (table : Table)
        (stored : Stored) (at : ℕ) (changes : List Change) (before : Directory) (s : Listed)
        (store : Store) (gone : ℕ) (index : TimeIndex)
        (goes : HasGoneOn blocks image d table stored at changes before s (Takes gone))
        → HasOffered blocks image d table stored at changes before
        → IsTurn d table at s store → Accepts store stored gone
        → (spells : SpellsBehind image s stored)
        → index_of table_rule image before.now s.row s.links ≡ Some index
        → let new = listed_behind (Takes gone) s in
        index_of table_rule image goes.next.now new.row new.links
        ≡ Some (index_behind_put gone
        (entry_of stored (last_of spells.link spells.links).block
        (used_by image s.row spells.link spells.links)) index) }
    ensures begins { (blocks : ℕ) (image : ℕ → List ℕ) (d : Directory) (table : Table)
        (stored : Stored) (at : ℕ) (changes : List Change) (before : Directory) (s : Listed)
        (store : Store) (gone : ℕ) (link : Link) (index : TimeIndex)
        (goes : HasGoneOn blocks image d table stored at changes before s (Begins gone link))
        → HasOffered blocks image d table stored at changes before
        → IsTurn d table at s store → Accepts store stored gone
        → SpellsFirst blocks image before s link stored
        → index_of table_rule image before.now s.row s.links ≡ Some index
        → let new = listed_behind (Begins gone link) s in
        index_of table_rule image goes.next.now new.row new.links
        ≡ Some (index_behind_put gone (entry_of stored link.block 0) index) }
    ensures others { (blocks : ℕ) (image : ℕ → List ℕ) (d : Directory) (table : Table)
        (stored : Stored) (at place : ℕ) (changes : List Change) (before : Directory)
        (s other : Listed) (outcome : Outcome) (index : TimeIndex)
        (goes : HasGoneOn blocks image d table stored at changes before s outcome)
        → HasOffered blocks image d table stored at changes before → (place == at) ≡ false
        → slice_get before.stores place ≡ Some other
        → index_of table_rule image before.now other.row other.links ≡ Some index
        → (slice_get goes.next.stores place ≡ Some other)
        × (index_of table_rule image goes.next.now other.row other.links ≡ Some index) }
{}

/// Each store keeps its index on each image that has the pages of the table's records.
pub fn places_stay_beside()
    ensures { (blocks : ℕ) (image other : ℕ → List ℕ) (d : Directory) (table : Table)
        (stored : Stored) (at place : ℕ) (changes : List Change) (next : Directory) (s : Listed)
        (index : TimeIndex)
        → HasOffered blocks image d table stored at changes next → IsContent blocks other
        → ((p : ℕ) → in_records image p next ≡ true → other p ≡ image p)
        → slice_get next.stores place ≡ Some s
        → index_of table_rule image next.now s.row s.links ≡ Some index
        → index_of table_rule other next.now s.row s.links ≡ Some index }
{}
