// Laws on the blocks that leave a store with their records.
ghost use Rattle.std.specs.Prelude.{◌≡◌, ◌<◌, ◌++◌, true, ℕ, List, Some, drop, map, slice_get, slice_set};
ghost use Rattle.pst_model.specs.Table.{Stored, Table};
ghost use Rattle.put_laws.specs.Puts.{is_unnamed};
ghost use Rattle.put_laws.specs.Walks.{HasOffered};
ghost use Rattle.record_view.specs.declared.link.Link.{Link};
ghost use Rattle.store_directory.specs.Changes.{Change};
ghost use Rattle.store_directory.specs.Directory.{Directory, Listed, is_new};
ghost use Rattle.store_load.specs.Claims.{block_of};

/// If the first links of a store go, and others may come behind the rest, no store names the block
/// of one that went.
pub fn blocks_leave_with_their_links()
    ensures { (blocks : ℕ) (image : ℕ → List ℕ) (d : Directory) (table : Table) (stored : Stored)
        (at place gone which : ℕ) (changes : List Change) (before next : Directory)
        (s new : Listed) (more : List Link) (link : Link)
        → HasOffered blocks image d table stored at changes before
        → slice_get before.stores place ≡ Some s
        → next.stores ≡ slice_set before.stores place new → new.links ≡ drop gone s.links ++ more
        → slice_get s.links which ≡ Some link → which < gone
        → is_new link.block (map block_of more) ≡ true → is_unnamed link.block next ≡ true }
{}
