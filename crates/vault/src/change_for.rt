// The change of the directory that an instruction makes.
ghost use Rattle.std.specs.Prelude.{◌≡◌, None};
ghost use Rattle.std.specs.Option.{option_map};
ghost use Rattle.request_laws.specs.Changing.{change_by, index_for, put_by, with_channel, with_kind, with_open, with_storage, without_range, deleted_row};
ghost use Rattle.retrieval.specs.Picks.{opened_row, ranged_row};
ghost use Rattle.store_directory.specs.Changes.{Gone, Types};
ghost use Rattle.store_directory.specs.Directory.{find_store};
ghost use Rattle.store_directory.specs.Kept.{change_of};
ghost use Rattle.store_policy.specs.Shown.{AreAllTogether};

use control_defs::{Instruction, Pattern, StoreKind};
use retrieval::{after_drop, open_from, with_range};
use store_directory::{Change, Directory, Row};
use time_index::Index;

// The row of the store with this identifier, if it stands.
fn row_of(directory: &Directory, store: u16) -> Option<Row>
    ensures { result ≡ option_map (λ s. s.row) (find_store store directory.now.stores) }
{
    let at = directory.find(store)?;
    Some(*directory.row(at))
}

// The put of a store with its storage on or off.
fn set_storage(directory: &Directory, store: u16, storage: bool) -> Option<Change<'static>>
    ensures { option_map change_of result
        ≡ put_by (with_storage storage) (find_store store directory.now.stores) }
{
    let row = row_of(directory, store)?;
    Some(Change::Put(Row { storage, ..row }))
}

// The put of a store with its open retrieval on or off.
fn set_open(directory: &Directory, store: u16, open_on: bool) -> Option<Change<'static>>
    ensures { option_map change_of result
        ≡ put_by (with_open open_on) (find_store store directory.now.stores) }
{
    let row = row_of(directory, store)?;
    Some(Change::Put(Row { open_on, ..row }))
}

// The put of a store of the other kind, of which it has not been told that it is full.
fn set_kind(directory: &Directory, store: u16, kind: StoreKind) -> Option<Change<'static>>
    ensures { option_map change_of result
        ≡ put_by (with_kind kind) (find_store store directory.now.stores) }
{
    let row = row_of(directory, store)?;
    Some(Change::Put(Row {
        kind,
        told: false,
        ..row
    }))
}

// The put of a store on another channel.
fn set_channel(directory: &Directory, store: u16, channel: u8) -> Option<Change<'static>>
    ensures { option_map change_of result
        ≡ put_by (with_channel channel) (find_store store directory.now.stores) }
{
    let row = row_of(directory, store)?;
    Some(Change::Put(Row { channel, ..row }))
}

// The put of a store without its range retrieval.
fn end_range(directory: &Directory, store: u16) -> Option<Change<'static>>
    ensures { option_map change_of result
        ≡ put_by without_range (find_store store directory.now.stores) }
{
    let row = row_of(directory, store)?;
    Some(Change::Put(Row { range: None, ..row }))
}

// The put of a store with a range retrieval of its packets with times from `t1` to `t2`.
fn start_range(
    directory: &Directory,
    indexes: &[Index],
    store: u16,
    t1: u64,
    t2: u64,
) -> Option<Change<'static>>
    requires { AreAllTogether directory.now.stores indexes.now }
    ensures { option_map change_of result
        ≡ put_by (ranged_row t1 t2 (index_for store directory.now.stores indexes.now))
        (find_store store directory.now.stores) }
{
    let at = directory.find(store)?;
    Some(Change::Put(with_range(directory.row(at), &indexes[at as usize], t1, t2)))
}

// The put of a store whose open retrieval goes on from `t`.
fn move_open(
    directory: &Directory,
    indexes: &[Index],
    store: u16,
    t: u64,
) -> Option<Change<'static>>
    requires { AreAllTogether directory.now.stores indexes.now }
    ensures { option_map change_of result
        ≡ put_by (opened_row t (index_for store directory.now.stores indexes.now))
        (find_store store directory.now.stores) }
{
    let at = directory.find(store)?;
    Some(Change::Put(open_from(directory.row(at), &indexes[at as usize], t)))
}

// The put of a store without its packets with times of at most `t`, of which it has not been told that
// it is full.
fn delete_up_to(
    directory: &Directory,
    indexes: &[Index],
    store: u16,
    t: u64,
) -> Option<Change<'static>>
    requires { AreAllTogether directory.now.stores indexes.now }
    ensures { option_map change_of result
        ≡ put_by (deleted_row t (index_for store directory.now.stores indexes.now))
        (find_store store directory.now.stores) }
{
    let at = directory.find(store)?;
    let leaving = indexes[at as usize].first_after(t);
    Some(Change::Put(Row {
        told: false,
        ..after_drop(directory.row(at), leaving)
    }))
}

// The end of a store, if it stands.
fn remove(directory: &Directory, store: u16) -> Option<Change<'static>>
    ensures { option_map change_of result
        ≡ option_map (λ _. Gone store) (find_store store directory.now.stores) }
{
    let _ = directory.find(store)?;
    Some(Change::Gone(store))
}

// A pattern of a store is added, or else removed, if the store stands.
fn change_types(
    directory: &Directory,
    store: u16,
    add: bool,
    pattern: Pattern,
) -> Option<Change<'static>>
    ensures { option_map change_of result
        ≡ option_map (λ s. Types store add pattern) (find_store store directory.now.stores) }
{
    let _ = directory.find(store)?;
    Some(Change::Types {
        store,
        add,
        pattern,
    })
}

/// The change that an instruction makes of a directory if it takes effect. None of an instruction
/// that only asks, of one whose store does not stand, and of a kind that is not carried out. The
/// indexes are those of the stores, each in the place of its store.
pub(crate) fn change_for(
    directory: &Directory,
    indexes: &[Index],
    item: &Instruction,
) -> Option<Change<'static>>
    requires { AreAllTogether directory.now.stores indexes.now }
    ensures { option_map change_of result
        ≡ change_by directory.now.directory indexes.now item.now }
{
    match *item {
        Instruction::ForwardAdd(pattern) => Some(Change::Forward { add: true, pattern }),
        Instruction::ForwardDelete(pattern) => Some(Change::Forward {
            add: false,
            pattern,
        }),
        Instruction::Enable(store) => set_storage(directory, store, true),
        Instruction::Disable(store) => set_storage(directory, store, false),
        Instruction::AddTypes { store, pattern } => change_types(directory, store, true, pattern),
        Instruction::DeleteTypes { store, pattern } => {
            change_types(directory, store, false, pattern)
        }
        Instruction::StartRange { store, t1, t2 } => {
            start_range(directory, indexes, store, t1, t2)
        }
        Instruction::DeleteUpTo { store, t } => delete_up_to(directory, indexes, store, t),
        Instruction::OpenFrom { store, t } => move_open(directory, indexes, store, t),
        Instruction::Resume(store) => set_open(directory, store, true),
        Instruction::Suspend(store) => set_open(directory, store, false),
        Instruction::Abort(store) => end_range(directory, store),
        Instruction::Remove(store) => remove(directory, store),
        Instruction::ToCircular(store) => set_kind(directory, store, StoreKind::Circular),
        Instruction::ToBounded(store) => set_kind(directory, store, StoreKind::Bounded),
        Instruction::Channel { store, channel } => set_channel(directory, store, channel),
        _ => None,
    }
}
