// Laws on a store whose last block is renewed.
ghost use Rattle.std.specs.Prelude.{◌≡◌, ◌≤◌, ◌<◌, ◌^◌, ◌∷◌, ℕ, List, All, Some, length, map, true};
ghost use Rattle.record_view.specs.Records.{Meaning};
ghost use Rattle.record_view.specs.declared.link.Link.{Link};
ghost use Rattle.store_directory.specs.Directory.{FitsLink, Listed, find_store, is_new, put_store, swap_last};
ghost use Rattle.store_directory.specs.declared.row.Row.{Row};
ghost use Rattle.store_load.specs.Claims.{all_links, block_of, is_data, may_share};
ghost use Rattle.store_load.specs.Extents.{last_of};
ghost use Rattle.store_load.specs.InRange.{IsInRange};
ghost use Rattle.store_load.specs.Keeping.{IsInDevice, Keeps};
ghost use Rattle.store_load.specs.Loaded.{index_of, used_in};
ghost use Rattle.store_load.specs.Moving.{SpellsLast};
ghost use Rattle.store_load.specs.declared.rule.Rule.{Rule};
ghost use Rattle.store_write.specs.Moved.{IsElsewhere, IsInPlace};
ghost use Rattle.store_write.specs.Renewed.{AreNamed, last_entries, renewed_index, renewed_link};
ghost use Rattle.time_index.specs.TimeIndex.{TimeIndex, pages_of};

/// The records of a store's last block fit one block.
pub fn last_records_fit_a_block()
    ensures { (rule : Rule) (now : ℕ) (row : Row) (links : List Link) (index : TimeIndex) (used : ℕ)
        → IsInRange rule now row links index used → 1 ≤ length links
        → pages_of (last_entries row links index) ≤ 256 }
{}

/// Nothing of a store is out of range after its last block was renewed.
pub fn renewed_stores_stay_in_range()
    ensures { (rule : Rule) (now : ℕ) (row : Row) (links swapped : List Link) (index : TimeIndex)
        (used fresh : ℕ)
        → row.first < 2 ^ 32 → row.count ≤ 100000 → 1 ≤ rule.least → All FitsLink links
        → IsInRange rule now row links index used
        → swap_last (renewed_link row links fresh) links ≡ Some swapped
        → IsInRange rule now row swapped (renewed_index row links fresh index)
        (pages_of (last_entries row links index)) }
{}

/// The records of a store's last block lie in the device, and in none but the store's blocks.
pub fn last_records_lie_in_the_links()
    ensures places { (rule : Rule) (blocks now : ℕ) (row : Row) (links : List Link)
        (index : TimeIndex) (used : ℕ) → rule.largest ≤ 4096 → All (IsInDevice blocks) links
        → IsInRange rule now row links index used
        → All (IsInPlace blocks) (last_entries row links index) }
    ensures apart { (rule : Rule) (now : ℕ) (row : Row) (links : List Link) (index : TimeIndex)
        (used fresh : ℕ) → is_new fresh (map block_of links) ≡ true
        → IsInRange rule now row links index used
        → All (IsElsewhere fresh) (last_entries row links index) }
{}

/// If another block spells the records of a store's last one, then behind a swap of both the store
/// has the index with the new places, and its last block uses the pages that these records cost.
pub fn renewed_stores_are_indexed()
    ensures { (rule : Rule) (blocks : ℕ) (image : ℕ → List ℕ) (now : ℕ) (row : Row)
        (links swapped : List Link) (records : List Meaning) (index : TimeIndex) (fresh : ℕ)
        → Keeps rule blocks image now row links records
        → index_of rule image now row links ≡ Some index
        → SpellsLast image row links (renewed_link row links fresh)
        → swap_last (renewed_link row links fresh) links ≡ Some swapped
        → (index_of rule image now row swapped ≡ Some (renewed_index row links fresh index))
        × (used_in image row swapped ≡ pages_of (last_entries row links index)) }
{}

/// Stores that share a device still do so when the last block of one is another one that no store
/// has.
pub fn renewed_stores_share_the_device()
    ensures { (least blocks : ℕ) (stores : List Listed) (s : Listed) (new : Link)
        (swapped : List Link) → may_share least blocks stores ≡ true
        → find_store s.identifier stores ≡ Some s → swap_last new s.links ≡ Some swapped
        → is_data blocks new ≡ true → is_new new.block (map block_of (all_links stores)) ≡ true
        → may_share least blocks (put_store (record s { links = swapped }) stores) ≡ true }
{}

/// Behind a renewal the stores name the new block, and not the old one: that one may be given back.
pub fn renewed_blocks_take_the_place_of_old_ones()
    ensures { (least blocks : ℕ) (stores : List Listed) (s : Listed) (link : Link)
        (links : List Link) (new : Link) (swapped : List Link)
        → may_share least blocks stores ≡ true → find_store s.identifier stores ≡ Some s
        → s.links ≡ link ∷ links → swap_last new s.links ≡ Some swapped
        → is_new new.block (map block_of (all_links stores)) ≡ true
        → AreNamed (last_of link links).block new.block (all_links stores)
        (all_links (put_store (record s { links = swapped }) stores)) }
{}
