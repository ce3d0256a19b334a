// Laws on what is in place in memory of a store behind a put, whether or not the board tells its flash.
ghost use Rattle.std.specs.Prelude.{◌≡◌, ◌≤◌, ◌<◌, ◌+◌, ◌^◌, ◌∷◌, ◌++◌, [], true, All, ℕ, List, drop, length};
ghost use Rattle.block_pool.specs.Sizes.{blocks_for_size};
ghost use Rattle.image_table.specs.Table.{table_rule};
ghost use Rattle.put_laws.specs.Indexes.{index_behind_put};
ghost use Rattle.record_view.specs.declared.link.Link.{Link};
ghost use Rattle.space_packet.specs.Charge.{charge_of};
ghost use Rattle.store_directory.specs.Directory.{FitsLink, trimmed};
ghost use Rattle.store_directory.specs.Rows.{is_lawful_row};
ghost use Rattle.store_directory.specs.declared.row.Row.{Row};
ghost use Rattle.store_load.specs.Extents.{end_of, last_of};
ghost use Rattle.store_load.specs.Held.{IsHeld};
ghost use Rattle.store_load.specs.InRange.{IsPlaced};
ghost use Rattle.store_load.specs.Keeping.{IsLinkOf};
ghost use Rattle.store_load.specs.Moving.{GoesOn};
ghost use Rattle.store_put.specs.Ranges.{IsFullBy, IsInPlace, used_for};
ghost use Rattle.time_index.specs.TimeIndex.{TimeIndex, pages_of, without_first};
ghost use Rattle.time_index.specs.declared.entry.Entry.{Entry};

/// A store that was loaded is in place.
pub fn loaded_stores_are_in_place()
    ensures { (blocks now : ℕ) (row : Row) (links : List Link) (index : TimeIndex) (used : ℕ)
        → IsHeld table_rule now row links index used → All (IsLinkOf blocks) links
        → length links ≤ 512 → is_lawful_row row ≡ true → row.first < 2 ^ 32
        → IsInPlace now row links index used }
{}

/// A store stays in place behind a put, into its last block or into a new one, whatever leaves its
/// front, and behind packets that leave its front alone; and a store whose last block is full has not as many blocks as it reserves.
pub fn stores_stay_in_place()
    ensures taken { (now later : ℕ) (row next : Row) (index : TimeIndex) (used gone : ℕ)
        (entry : Entry) → row.first < 2 ^ 32 → row.count ≤ 100000 → now ≤ later
        → GoesOn gone 1 row next → next.size ≡ row.size → IsPlaced table_rule later entry
        → pages_of (drop gone index.entries) + charge_of entry.length ≤ row.size
        → (link : Link) (links : List Link) → IsInPlace now row (link ∷ links) index used
        → All FitsLink (link ∷ links) → used + charge_of entry.length ≤ 256
        → entry.block ≡ (last_of link links).block
        → IsInPlace later next (trimmed next.first next.count (link ∷ links))
        (index_behind_put gone entry index) (used + charge_of entry.length) }
    ensures begun { (now later : ℕ) (row next : Row) (index : TimeIndex) (used gone : ℕ)
        (entry : Entry) → row.first < 2 ^ 32 → row.count ≤ 100000 → now ≤ later
        → GoesOn gone 1 row next → next.size ≡ row.size → IsPlaced table_rule later entry
        → pages_of (drop gone index.entries) + charge_of entry.length ≤ row.size
        → (links : List Link) (new : Link) → IsInPlace now row links index used
        → All FitsLink links → IsFullBy used links → new.first ≡ end_of row
        → entry.block ≡ new.block → charge_of entry.length ≤ 256
        → IsInPlace later next (trimmed next.first next.count (links ++ new ∷ []))
        (index_behind_put gone entry index) (charge_of entry.length) }
    ensures left { (now : ℕ) (row next : Row) (index : TimeIndex) (used gone : ℕ)
        → row.first < 2 ^ 32 → row.count ≤ 100000 → GoesOn gone 0 row next
        → next.size ≡ row.size → (links : List Link) → IsInPlace now row links index used
        → All FitsLink links
        → IsInPlace now next (trimmed next.first next.count links) (without_first index gone)
        (used_for next.count used) }
    ensures room { (now : ℕ) (row : Row) (links : List Link) (index : TimeIndex) (used : ℕ)
        → IsInPlace now row links index used → All FitsLink links → row.first < 2 ^ 32
        → row.count ≤ 100000 → IsFullBy used links
        → length links + 1 ≤ blocks_for_size row.size }
{}
