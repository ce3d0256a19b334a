// What lies in memory of the stores follows the change that an instruction makes of the directory.
ghost use Rattle.std.specs.Prelude.{◌≡◌, length};
ghost use Rattle.request_laws.specs.Changing.{changed_for, deleted_index, index_for, indexes_by, without_for};
ghost use Rattle.vault.specs.Following.{last_for, lasts_by};

use crate::last_block::LastBlock;
use control_defs::Instruction;
use store_directory::Directory;
use time_index::Index;

// What is known of the last block of a store that has so many packets left: none without a packet.
fn last_left(count: u32, last: LastBlock) -> LastBlock
    ensures { result ≡ last_for count last }
{
    if count == 0 {
        LastBlock {
            used: 0,
            stale: false,
        }
    } else {
        last
    }
}

// The packets with times of at most `t` leave the index of a store.
fn delete_front(
    directory: &Directory,
    indexes: &mut Vec<Index>,
    lasts: &mut Vec<LastBlock>,
    store: u16,
    t: u64,
)
    requires indexes { length indexes.old.items ≡ length directory.now.stores }
    requires lasts { length lasts.old.items ≡ length directory.now.stores }
    ensures indexes { indexes.new.items
        ≡ changed_for store (deleted_index t) directory.now.stores indexes.old.items }
    ensures lasts { lasts.new.items ≡ changed_for store
        (last_for (length (deleted_index t
        (index_for store directory.now.stores indexes.old.items)).entries))
        directory.now.stores lasts.old.items }
{
    let Some(at) = directory.find(store) else {
        return;
    };
    let at = at as usize;
    let index = &mut indexes[at];
    index.drop_front(index.first_after(t));
    let left = index.len();
    lasts[at] = last_left(left, lasts[at]);
}

// A store goes.
fn remove_store(
    directory: &Directory,
    indexes: &mut Vec<Index>,
    lasts: &mut Vec<LastBlock>,
    store: u16,
)
    requires indexes { length indexes.old.items ≡ length directory.now.stores }
    requires lasts { length lasts.old.items ≡ length directory.now.stores }
    ensures indexes { indexes.new.items
        ≡ without_for store directory.now.stores indexes.old.items }
    ensures lasts { lasts.new.items ≡ without_for store directory.now.stores lasts.old.items }
{
    let Some(at) = directory.find(store) else {
        return;
    };
    let at = at as usize;
    let _ = indexes.remove(at);
    let _ = lasts.remove(at);
}

/// Makes of indexes and last blocks what the change of an instruction makes of them, which is not
/// made yet of their directory.
pub(crate) fn follow(
    directory: &Directory,
    indexes: &mut Vec<Index>,
    lasts: &mut Vec<LastBlock>,
    item: &Instruction,
)
    requires indexes { length indexes.old.items ≡ length directory.now.stores }
    requires lasts { length lasts.old.items ≡ length directory.now.stores }
    ensures indexes { indexes.new.items
        ≡ indexes_by directory.now.directory indexes.old.items item.now }
    ensures lasts { lasts.new.items
        ≡ lasts_by directory.now.directory indexes.old.items lasts.old.items item.now }
{
    match *item {
        Instruction::DeleteUpTo { store, t } => delete_front(directory, indexes, lasts, store, t),
        Instruction::Remove(store) => remove_store(directory, indexes, lasts, store),
        _ => {}
    }
}
