// Laws on what is in memory while an arriving packet is offered to one store after another, whether or
// not the board tells its flash.
ghost use Rattle.std.specs.Prelude.{◌≡◌, ◌≤◌, ◌<◌, ◌+◌, ◌∷◌, [], true, ℕ, List, Some, drop, slice_get, slice_set};
ghost use Rattle.block_pool.specs.Blocks.{Blocks, IsPool, blocks_of, free_count, is_free};
ghost use Rattle.image_table.specs.Table.{table_rule};
ghost use Rattle.put_laws.specs.Indexes.{index_behind_put};
ghost use Rattle.put_laws.specs.Puts.{row_behind_put, told_row};
ghost use Rattle.record_view.specs.declared.link.Link.{Link};
ghost use Rattle.space_packet.specs.Charge.{charge_of};
ghost use Rattle.store_directory.specs.Changes.{Links, Put, apply};
ghost use Rattle.store_directory.specs.Directory.{Directory, IsDirectory, Listed};
ghost use Rattle.store_load.specs.Claims.{may_share};
ghost use Rattle.store_load.specs.Extents.{end_of, last_of};
ghost use Rattle.store_load.specs.InRange.{IsPlaced};
ghost use Rattle.store_put.specs.Pools.{IsTaken, is_unlinked};
ghost use Rattle.store_put.specs.Ranges.{IsFullBy, IsInPlace};
ghost use Rattle.store_put.specs.Walking.{EachInPlace, IsWalking, PlaceAt};
ghost use Rattle.time_index.specs.TimeIndex.{TimeIndex, pages_of};
ghost use Rattle.time_index.specs.declared.entry.Entry.{Entry};

/// A walk begins behind the change of the clock, if the stores are in place, and a block is free
/// exactly if it is a data block that no store names.
pub fn memory_begins_a_walk()
    ensures { (blocks : ℕ) (d : Directory) (time : ℕ) (next : Directory)
        (indexes : List TimeIndex) (useds : List ℕ) (pool : Blocks) → IsDirectory d
        → IsDirectory next → may_share 240 blocks d.stores ≡ true → next.stores ≡ d.stores
        → next.now ≡ time → d.now ≤ time → EachInPlace d.now d.stores indexes useds
        → IsPool pool → blocks_of pool ≡ blocks
        → ((block : ℕ) → is_free pool block ≡ is_unlinked blocks d.stores block)
        → IsWalking blocks d time 0 next indexes useds pool }
{}

/// The store whose turn it is, is listed as it was, and in place. If its last block is full, or it has
/// none, a block is free.
pub fn memory_has_the_next_store()
    ensures here { (blocks : ℕ) (d : Directory) (time at : ℕ) (next : Directory)
        (indexes : List TimeIndex) (useds : List ℕ) (pool : Blocks)
        → IsWalking blocks d time at next indexes useds pool → (s : Listed)
        → slice_get d.stores at ≡ Some s
        → (slice_get next.stores at ≡ Some s) × PlaceAt time indexes useds at s }
    ensures free { (blocks : ℕ) (d : Directory) (time at : ℕ) (next : Directory)
        (indexes : List TimeIndex) (useds : List ℕ) (pool : Blocks)
        → IsWalking blocks d time at next indexes useds pool → (s : Listed)
        → slice_get d.stores at ≡ Some s → (used : ℕ) (index : TimeIndex)
        → IsInPlace time s.row s.links index used → IsFullBy used s.links
        → 0 < free_count pool }
{}

/// A walk goes on in memory by each of the outcomes: the store stays as it is; it tells a refusal; it
/// takes the packet into its last block, or into one that was free.
pub fn memory_goes_on()
    ensures stays { (blocks : ℕ) (d : Directory) (time at : ℕ) (next : Directory)
        (indexes : List TimeIndex) (useds : List ℕ) (pool : Blocks)
        → IsWalking blocks d time at next indexes useds pool → (s : Listed)
        → slice_get d.stores at ≡ Some s
        → IsWalking blocks d time (at + 1) next indexes useds pool }
    ensures tells { (blocks : ℕ) (d : Directory) (time at : ℕ) (next : Directory)
        (indexes : List TimeIndex) (useds : List ℕ) (pool : Blocks)
        → IsWalking blocks d time at next indexes useds pool → (s : Listed)
        → slice_get d.stores at ≡ Some s → (e : Directory)
        → apply next (Put (told_row s.row)) ≡ Some e
        → IsWalking blocks d time (at + 1) e indexes useds pool }
    ensures takes { (blocks : ℕ) (d : Directory) (time at : ℕ) (next : Directory)
        (indexes : List TimeIndex) (useds : List ℕ) (pool : Blocks)
        → IsWalking blocks d time at next indexes useds pool → (s : Listed)
        → slice_get d.stores at ≡ Some s → (own : PlaceAt time indexes useds at s)
        → (e : Directory) (gone : ℕ) (entry : Entry) (link : Link) (links : List Link)
        → s.links ≡ link ∷ links → gone ≤ s.row.count → IsPlaced table_rule time entry
        → pages_of (drop gone own.index.entries) + charge_of entry.length ≤ s.size
        → own.used + charge_of entry.length ≤ 256 → entry.block ≡ (last_of link links).block
        → apply next (Put (row_behind_put gone s.row)) ≡ Some e
        → IsWalking blocks d time (at + 1) e
        (slice_set indexes at (index_behind_put gone entry own.index))
        (slice_set useds at (own.used + charge_of entry.length)) pool }
    ensures begins { (blocks : ℕ) (d : Directory) (time at : ℕ) (next : Directory)
        (indexes : List TimeIndex) (useds : List ℕ) (pool : Blocks)
        → IsWalking blocks d time at next indexes useds pool → (s : Listed)
        → slice_get d.stores at ≡ Some s → (own : PlaceAt time indexes useds at s)
        → (m e : Directory) (gone : ℕ) (entry : Entry) (link : Link) (taken : Blocks)
        → IsFullBy own.used s.links → gone ≤ s.row.count → IsPlaced table_rule time entry
        → pages_of (drop gone own.index.entries) + charge_of entry.length ≤ s.size
        → charge_of entry.length ≤ 256 → entry.block ≡ link.block → link.first ≡ end_of s.row
        → IsTaken pool taken link.block → IsPool taken → blocks_of taken ≡ blocks → blocks ≤ 512
        → apply next (Links s.identifier (link ∷ [])) ≡ Some m
        → apply m (Put (row_behind_put gone s.row)) ≡ Some e
        → IsWalking blocks d time (at + 1) e
        (slice_set indexes at (index_behind_put gone entry own.index))
        (slice_set useds at (charge_of entry.length)) taken }
{}
