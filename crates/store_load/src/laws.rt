// Laws on the records that a store keeps on an image.
ghost use Rattle.std.specs.Prelude.{◌≡◌, ◌≤◌, ◌<◌, ◌+◌, ◌^◌, ◌++◌, ◌∷◌, ℕ, List, [], All, None, Some, drop, length, map, true};
ghost use Rattle.board.specs.Flash.{IsContent};
ghost use Rattle.space_packet.specs.Charge.{charge_of};
ghost use Rattle.record_view.specs.Records.{Meaning, record_at};
ghost use Rattle.record_view.specs.declared.link.Link.{Link};
ghost use Rattle.store_directory.specs.Directory.{swap_last, trimmed};
ghost use Rattle.store_directory.specs.Rows.{is_lawful_row};
ghost use Rattle.store_directory.specs.declared.row.Row.{Row};
ghost use Rattle.store_load.specs.declared.rule.Rule.{Rule};
ghost use Rattle.chain_log.specs.Pages.{block_octets};
ghost use Rattle.store_load.specs.Extents.{end_of, extent_to, last_of, pages_in, read_extent};
ghost use Rattle.store_load.specs.Frame.{in_store};
ghost use Rattle.store_load.specs.Held.{IsHeld};
ghost use Rattle.store_load.specs.InRange.{IsInRange};
ghost use Rattle.store_load.specs.Keeping.{IsInDevice, IsLinkOf, Keeps};
ghost use Rattle.store_load.specs.Kept.{kept_of};
ghost use Rattle.store_load.specs.Loaded.{index_of, seen, shown};
ghost use Rattle.store_load.specs.Moving.{GoesOn, IsNext, last_extent, used_by};
ghost use Rattle.time_index.specs.TimeIndex.{TimeIndex};

/// A store keeps its records on each image that has the same pages of them, and then these are
/// the pages that it is read from there too. All other pages may hold anything.
pub fn stores_are_read_from_their_records()
    ensures kept { (rule : Rule) (blocks : ℕ) (image other : ℕ → List ℕ) (now : ℕ) (row : Row)
        (links : List Link) (records : List Meaning)
        → IsContent blocks image → IsContent blocks other → All (IsInDevice blocks) links
        → kept_of rule image now row links ≡ Some records
        → ((p : ℕ) → in_store image p row links ≡ true → other p ≡ image p)
        → kept_of rule other now row links ≡ Some records }
    ensures pages { (rule : Rule) (blocks : ℕ) (image other : ℕ → List ℕ) (now : ℕ) (row : Row)
        (links : List Link) (records : List Meaning)
        → IsContent blocks image → IsContent blocks other → All (IsInDevice blocks) links
        → kept_of rule image now row links ≡ Some records
        → ((p : ℕ) → in_store image p row links ≡ true → other p ≡ image p)
        → (p : ℕ) → in_store other p row links ≡ in_store image p row links }
{}

/// A row counts the records that its store keeps.
pub fn rows_count_their_records()
    ensures { (rule : Rule) (blocks : ℕ) (image : ℕ → List ℕ) (now : ℕ) (row : Row)
        (links : List Link) (records : List Meaning)
        → Keeps rule blocks image now row links records → length records ≡ row.count }
{}

/// Nothing of a store that was loaded is out of range, whether or not the board told its flash: the
/// index has the row's first number, count and size; each entry's place lies in the block of the link
/// that holds its number; the links' first numbers rise; and the blocks behind the first one are as
/// full as the entries say.
pub fn loaded_stores_are_in_range()
    ensures { (rule : Rule) (blocks now : ℕ) (row : Row) (links : List Link) (index : TimeIndex)
        (used : ℕ) → IsHeld rule now row links index used → All (IsLinkOf blocks) links
        → length links ≤ 512 → 1 ≤ rule.least → is_lawful_row row ≡ true → row.first < 4294967296
        → IsInRange rule now row links index used }
{}

/// A store has an index exactly where it keeps records, and the index lists them: their stamps and
/// the lengths of their packets, in order.
pub fn indexes_list_the_kept_records()
    ensures listed { (rule : Rule) (image : ℕ → List ℕ) (now : ℕ) (row : Row) (links : List Link)
        (index : TimeIndex) → index_of rule image now row links ≡ Some index
        → (records : List Meaning) × (kept_of rule image now row links ≡ Some records)
        × (map seen index.entries ≡ map shown records) }
    ensures none { (rule : Rule) (image : ℕ → List ℕ) (now : ℕ) (row : Row) (links : List Link)
        → index_of rule image now row links ≡ None → kept_of rule image now row links ≡ None }
{}

/// A row with a later first number, and the links that its Put leaves, keep the records without
/// the first ones, at a later time too.
pub fn fronts_go()
    ensures { (rule : Rule) (blocks : ℕ) (image : ℕ → List ℕ) (now later : ℕ) (row : Row)
        (links : List Link) (records : List Meaning) (gone : ℕ) (next : Row)
        → Keeps rule blocks image now row links records → now ≤ later → GoesOn gone 0 row next
        → pages_in (drop gone records) ≤ next.size
        → kept_of rule image later next (trimmed next.first next.count links)
        ≡ Some (drop gone records) }
{}

/// If the next record is spelled behind the last one, a row that counts it keeps it last, whether or
/// not the front goes.
pub fn records_are_appended()
    ensures { (rule : Rule) (blocks : ℕ) (image : ℕ → List ℕ) (now later : ℕ) (row : Row)
        (link : Link) (links : List Link) (records : List Meaning) (gone : ℕ) (next : Row)
        (meaning : Meaning)
        → Keeps rule blocks image now row (link ∷ links) records → now ≤ later
        → GoesOn gone 1 row next
        → record_at (block_octets image (last_of link links).block) (end_of row)
        (used_by image row link links) ≡ Some meaning
        → IsNext rule now later meaning
        → pages_in (drop gone records) + charge_of (length meaning.packet) ≤ next.size
        → kept_of rule image later next (trimmed next.first next.count (link ∷ links))
        ≡ Some (drop gone records ++ meaning ∷ []) }
{}

/// A store without records that gets its first block keeps the record that is spelled at its front.
/// And a link without records may stand behind a last block that is full enough.
pub fn blocks_are_begun()
    ensures first { (rule : Rule) (image : ℕ → List ℕ) (later : ℕ) (next : Row) (link : Link)
        (meaning : Meaning)
        → next.first < 2 ^ 32 → next.count ≡ 1 → link.first ≡ next.first
        → record_at (block_octets image link.block) next.first 0 ≡ Some meaning
        → meaning.stamp ≤ later → length meaning.packet ≤ rule.largest
        → charge_of (length meaning.packet) ≤ next.size
        → kept_of rule image later next (link ∷ []) ≡ Some (meaning ∷ []) }
    ensures further { (rule : Rule) (blocks : ℕ) (image : ℕ → List ℕ) (now : ℕ) (row : Row)
        (link : Link) (links : List Link) (records : List Meaning) (new : Link)
        → Keeps rule blocks image now row (link ∷ links) records → new.first ≡ end_of row
        → rule.least ≤ used_by image row link links
        → kept_of rule image now row (link ∷ links ++ new ∷ []) ≡ Some records }
{}

/// Another last block that spells the live records of the old one under the same numbers leaves
/// the records as they are.
pub fn last_blocks_may_be_swapped()
    ensures only { (rule : Rule) (blocks : ℕ) (image : ℕ → List ℕ) (now : ℕ) (row : Row)
        (link new : Link) (records : List Meaning)
        → Keeps rule blocks image now row (link ∷ []) records → new.first ≡ row.first
        → read_extent image (extent_to (end_of row) new) ≡ Some records
        → kept_of rule image now row (new ∷ []) ≡ Some records }
    ensures behind { (rule : Rule) (blocks : ℕ) (image : ℕ → List ℕ) (now : ℕ) (row : Row)
        (link next : Link) (links : List Link) (records : List Meaning) (new : Link)
        (swapped : List Link)
        → Keeps rule blocks image now row (link ∷ next ∷ links) records
        → swap_last new (link ∷ next ∷ links) ≡ Some swapped
        → new.first ≡ (last_of next links).first
        → read_extent image (extent_to (end_of row) new)
        ≡ read_extent image (last_extent row link (next ∷ links))
        → kept_of rule image now row swapped ≡ Some records }
{}
