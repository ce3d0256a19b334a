// Laws on the index of a store: the stamp, the place and the length of each record that it keeps.
ghost use Rattle.std.specs.Prelude.{◌≡◌, ◌≤◌, ◌<◌, ◌+◌, ◌^◌, ◌++◌, ◌∷◌, ℕ, List, [], All, Some, drop, length, slice_get, take, true};
ghost use Rattle.board.specs.Flash.{IsContent};
ghost use Rattle.chain_log.specs.Pages.{block_octets};
ghost use Rattle.record_view.specs.Records.{Meaning, record_at};
ghost use Rattle.record_view.specs.declared.link.Link.{Link};
ghost use Rattle.space_packet.specs.Charge.{charge_of};
ghost use Rattle.store_directory.specs.Directory.{swap_last, trimmed};
ghost use Rattle.store_directory.specs.declared.row.Row.{Row};
ghost use Rattle.store_load.specs.declared.rule.Rule.{Rule};
ghost use Rattle.store_load.specs.Extents.{end_of, extent_to, last_of, pages_in, read_extent};
ghost use Rattle.store_load.specs.Frame.{in_store};
ghost use Rattle.store_load.specs.Keeping.{IsInDevice, IsLinkOf, Keeps};
ghost use Rattle.store_load.specs.Loaded.{index_of, index_with, used_in};
ghost use Rattle.store_load.specs.Loading.{entry_at};
ghost use Rattle.store_load.specs.Moving.{GoesOn, IsNext, last_extent, used_by};
ghost use Rattle.store_load.specs.Renewing.{last_position, renewed_from, renewed_part};
ghost use Rattle.time_index.specs.TimeIndex.{TimeIndex, pages_of, with_entry, with_entry_at, without_first};
ghost use Rattle.time_index.specs.declared.entry.Entry.{Entry};

/// A store has the same index on each image that has the same pages of its records, and at a later
/// time; and a row with the same first number, count and size has that index too.
pub fn indexes_stay()
    ensures beside { (rule : Rule) (blocks : ℕ) (image other : ℕ → List ℕ) (now : ℕ) (row : Row)
        (links : List Link) (index : TimeIndex)
        → IsContent blocks image → IsContent blocks other → All (IsInDevice blocks) links
        → index_of rule image now row links ≡ Some index
        → ((p : ℕ) → in_store image p row links ≡ true → other p ≡ image p)
        → index_of rule other now row links ≡ Some index }
    ensures used { (rule : Rule) (blocks : ℕ) (image other : ℕ → List ℕ) (now : ℕ) (row : Row)
        (links : List Link) (index : TimeIndex)
        → IsContent blocks image → IsContent blocks other → All (IsInDevice blocks) links
        → index_of rule image now row links ≡ Some index
        → ((p : ℕ) → in_store image p row links ≡ true → other p ≡ image p)
        → used_in other row links ≡ used_in image row links }
    ensures later { (rule : Rule) (image : ℕ → List ℕ) (now later : ℕ) (row : Row)
        (links : List Link) (index : TimeIndex) → now ≤ later
        → index_of rule image now row links ≡ Some index
        → index_of rule image later row links ≡ Some index }
    ensures flags { (rule : Rule) (image : ℕ → List ℕ) (now : ℕ) (row other : Row)
        (links : List Link) → other.first ≡ row.first → other.count ≡ row.count
        → other.size ≡ row.size
        → index_of rule image now other links ≡ index_of rule image now row links }
{}

/// If the front of a store goes, so do its index's first entries, at a later time too.
pub fn indexes_lose_their_fronts()
    ensures { (rule : Rule) (blocks : ℕ) (image : ℕ → List ℕ) (now later : ℕ) (row : Row)
        (links : List Link) (records : List Meaning) (index : TimeIndex) (gone : ℕ) (next : Row)
        → Keeps rule blocks image now row links records
        → index_of rule image now row links ≡ Some index → now ≤ later → GoesOn gone 0 row next
        → pages_in (drop gone records) ≤ next.size
        → index_of rule image later next (trimmed next.first next.count links)
        ≡ Some (record (without_first index gone) { size = next.size }) }
{}

/// If the next record is spelled behind the last one, the index of a row that counts it gets its
/// place last, whether or not the front goes.
pub fn indexes_get_their_records()
    ensures { (rule : Rule) (blocks : ℕ) (image : ℕ → List ℕ) (now later : ℕ) (row : Row)
        (link : Link) (links : List Link) (records : List Meaning) (index : TimeIndex) (gone : ℕ)
        (next : Row) (meaning : Meaning)
        → Keeps rule blocks image now row (link ∷ links) records
        → index_of rule image now row (link ∷ links) ≡ Some index → now ≤ later
        → GoesOn gone 1 row next
        → record_at (block_octets image (last_of link links).block) (end_of row)
        (used_by image row link links) ≡ Some meaning
        → IsNext rule now later meaning
        → pages_in (drop gone records) + charge_of (length meaning.packet) ≤ next.size
        → index_of rule image later next (trimmed next.first next.count (link ∷ links))
        ≡ Some (record (with_entry (without_first index gone)
        (entry_at (last_of link links).block (used_by image row link links) meaning))
        { size = next.size }) }
{}

/// A store without records that gets its first block has an index of the record at its front. A
/// link without records behind a full last block leaves the index as it is, and the record at that
/// block's front goes last.
pub fn indexes_begin_blocks()
    ensures first { (rule : Rule) (image : ℕ → List ℕ) (later : ℕ) (next : Row) (link : Link)
        (meaning : Meaning)
        → next.first < 2 ^ 32 → next.count ≡ 1 → link.first ≡ next.first
        → record_at (block_octets image link.block) next.first 0 ≡ Some meaning
        → meaning.stamp ≤ later → length meaning.packet ≤ rule.largest
        → charge_of (length meaning.packet) ≤ next.size
        → index_of rule image later next (link ∷ [])
        ≡ Some (index_with next (entry_at link.block 0 meaning ∷ [])) }
    ensures further { (rule : Rule) (blocks : ℕ) (image : ℕ → List ℕ) (now : ℕ) (row : Row)
        (link : Link) (links : List Link) (records : List Meaning) (index : TimeIndex) (new : Link)
        → Keeps rule blocks image now row (link ∷ links) records
        → index_of rule image now row (link ∷ links) ≡ Some index → new.first ≡ end_of row
        → rule.least ≤ used_by image row link links
        → index_of rule image now row (link ∷ links ++ new ∷ []) ≡ Some index }
    ensures counted { (rule : Rule) (blocks : ℕ) (image : ℕ → List ℕ) (now later : ℕ) (row : Row)
        (link : Link) (links : List Link) (records : List Meaning) (index : TimeIndex) (new : Link)
        (gone : ℕ) (next : Row) (meaning : Meaning)
        → Keeps rule blocks image now row (link ∷ links) records
        → index_of rule image now row (link ∷ links) ≡ Some index → new.first ≡ end_of row
        → rule.least ≤ used_by image row link links
        → IsLinkOf blocks new → length links + 2 ≤ 512 → now ≤ later → GoesOn gone 1 row next
        → record_at (block_octets image new.block) (end_of row) 0 ≡ Some meaning
        → IsNext rule now later meaning
        → pages_in (drop gone records) + charge_of (length meaning.packet) ≤ next.size
        → index_of rule image later next
        (trimmed next.first next.count (link ∷ links ++ new ∷ []))
        ≡ Some (record (with_entry (without_first index gone) (entry_at new.block 0 meaning))
        { size = next.size }) }
{}

/// Another last block that spells the live records of the old one under the same numbers leaves
/// stamps and lengths as they are. The entries of these records have their places in the new
/// block, from its first page on, and use as many pages of it as they cost.
pub fn indexes_move_to_new_blocks()
    ensures only { (rule : Rule) (blocks : ℕ) (image : ℕ → List ℕ) (now : ℕ) (row : Row)
        (link new : Link) (records : List Meaning) (index : TimeIndex)
        → Keeps rule blocks image now row (link ∷ []) records
        → index_of rule image now row (link ∷ []) ≡ Some index → new.first ≡ row.first
        → read_extent image (extent_to (end_of row) new) ≡ Some records
        → index_of rule image now row (new ∷ []) ≡ Some (renewed_from 0 new.block index) }
    ensures only_used { (rule : Rule) (blocks : ℕ) (image : ℕ → List ℕ) (now : ℕ) (row : Row)
        (link new : Link) (records : List Meaning) (index : TimeIndex)
        → Keeps rule blocks image now row (link ∷ []) records
        → index_of rule image now row (link ∷ []) ≡ Some index
        → read_extent image (extent_to (end_of row) new) ≡ Some records
        → used_in image row (new ∷ []) ≡ pages_of index.entries }
    ensures behind { (rule : Rule) (blocks : ℕ) (image : ℕ → List ℕ) (now : ℕ) (row : Row)
        (link next : Link) (links : List Link) (records : List Meaning) (index : TimeIndex)
        (new : Link) (swapped : List Link)
        → Keeps rule blocks image now row (link ∷ next ∷ links) records
        → index_of rule image now row (link ∷ next ∷ links) ≡ Some index
        → swap_last new (link ∷ next ∷ links) ≡ Some swapped
        → new.first ≡ (last_of next links).first
        → read_extent image (extent_to (end_of row) new)
        ≡ read_extent image (last_extent row link (next ∷ links))
        → index_of rule image now row swapped
        ≡ Some (renewed_from (last_position row (link ∷ next ∷ links)) new.block index) }
    ensures behind_used { (rule : Rule) (blocks : ℕ) (image : ℕ → List ℕ) (now : ℕ) (row : Row)
        (link next : Link) (links : List Link) (records : List Meaning) (index : TimeIndex)
        (new : Link) (swapped : List Link)
        → Keeps rule blocks image now row (link ∷ next ∷ links) records
        → index_of rule image now row (link ∷ next ∷ links) ≡ Some index
        → swap_last new (link ∷ next ∷ links) ≡ Some swapped
        → read_extent image (extent_to (end_of row) new)
        ≡ read_extent image (last_extent row link (next ∷ links))
        → used_in image row swapped
        ≡ pages_of (drop (last_position row (link ∷ next ∷ links)) index.entries) }
{}

/// The entries of a last block move one after another: each has its place behind those that were
/// moved before it.
pub fn entries_move_one_by_one()
    ensures none { (position block : ℕ) (index : TimeIndex)
        → renewed_part position 0 block index ≡ index }
    ensures next { (position count block : ℕ) (index : TimeIndex) (entry : Entry)
        → slice_get index.entries (position + count) ≡ Some entry
        → with_entry_at (renewed_part position count block index) (position + count)
        (record entry {
          block = block;
          page = pages_of (take count (drop position index.entries));
        }) ≡ renewed_part position (count + 1) block index }
    ensures all { (position count block : ℕ) (index : TimeIndex)
        → length index.entries ≤ position + count
        → renewed_part position count block index ≡ renewed_from position block index }
{}
