// Refusals by sizes, blocks, windows and full lists, by stores written out by hand.

use super::*;
use crate::stores_made::{
    QUIET, Stores, all_answer, answer, copy, create, resize, rows, stores_of,
};
use control_defs::Instruction::{AddTypes, DeleteTypes, ForwardAdd, ForwardDelete};
use control_defs::Pattern::{self, App, Every, Service};
use std::alloc::Global;
use std::test::Fail;
use store_directory::{Change, Row};

// The six stores reserve 18 blocks, and 26 - 8 are theirs.
#[test]
fn sizes_are_limited(rt: HostRuntime) {
    let (need, free) = (3, 0);
    let cases = [
        (create(1, 0, 0), Err(Refusal::StoreExists)),
        (create(7, 0, 0), Err(Refusal::SizeRange)),
        (create(7, 100_001, 0), Err(Refusal::SizeRange)),
        (create(7, 1, 0), Err(Refusal::BadChannel)),
        (create(7, 1, 8), Err(Refusal::BadChannel)),
        (create(7, 239, 7), Err(Refusal::NoBlocks { need, free })),
        (resize(5, 0), Err(Refusal::SizeRange)),
        (resize(5, 1), Err(Refusal::StorageOn)),
        (resize(3, 1), Err(Refusal::OpenOn)),
        (resize(4, 1), Err(Refusal::RangeOn)),
        (resize(1, 1), Err(Refusal::TooSmall { content: 2 })),
        (resize(1, 2), Ok(())),
        (resize(1, 239), Ok(())),
        (resize(1, 240), Err(Refusal::NoBlocks { need: 4, free: 3 })),
    ];
    assert!(rt; all_answer(rt.alloc(), 26, &cases));
}

// A first store of 64 pages reserves three of the eight blocks that a device of 16 has for stores.
#[test]
fn a_store_takes_the_blocks_that_are_left(rt: HostRuntime) {
    let Some(stores) = stores_of(rt.alloc(), &[QUIET]) else {
        assert!(rt; false);
        return;
    };
    let (need, free) = (6, 5);
    let refused = Err(Refusal::NoBlocks { need, free });
    assert!(rt; answer(&stores, 16, &create(2, 719, 2)) == Some(Ok(())));
    assert!(rt; answer(&stores, 16, &create(2, 720, 2)) == Some(refused));
}

#[test]
fn a_copy_goes_into_an_empty_store(rt: HostRuntime) {
    let (from, to) = (1, 6);
    let (t1, t2) = (1, 2);
    let full = Err(Refusal::Full { need: 2, free: 1 });
    let nothing = Err(Refusal::NothingThere);
    let cases = [
        (copy(from, to, t1, 1), Ok(())),
        (copy(5, to, 2, t2), Ok(())),
        (copy(from, from, 2, 1), Err(Refusal::SameStore)),
        (copy(from, 2, 2, 1), Err(Refusal::Reversed)),
        (copy(from, 2, 3, 3), Err(Refusal::NotEmpty)),
        (copy(from, to, 3, 3), nothing),
        (copy(from, to, 0, 0), nothing),
        (copy(from, to, t1, t2), full),
        (copy(from, to, 0, 9), full),
    ];
    assert!(rt; all_answer(rt.alloc(), 64, &cases));
}

// The stores of `rows`, where 64 patterns are forwarded and stored by the first store.
fn with_patterns(alloc: Global) -> Option<Stores> {
    let mut stores = stores_of(alloc, &rows())?;
    for apid in 0..64 {
        let (store, add, pattern) = (1, true, App(apid));
        let forward = Change::Forward { add, pattern };
        let types = Change::Types {
            store,
            add,
            pattern,
        };
        stores.directory.apply(alloc, &forward).ok()?;
        stores.directory.apply(alloc, &types).ok()?;
    }
    Some(stores)
}

#[test]
fn lists_have_64_patterns(rt: HostRuntime) {
    let Some(stores) = with_patterns(rt.alloc()) else {
        assert!(rt; false);
        return;
    };
    let limit = Err(Refusal::PatternLimit);
    let absent = Err(Refusal::PatternAbsent);
    let cases: [(Pattern, Result<(), Refusal>, Result<(), Refusal>); 5] = [
        (App(64), limit, absent),
        (App(63), Ok(()), Ok(())),
        (Service(64, 3), limit, absent),
        (Service(63, 3), Ok(()), absent),
        (Every, Ok(()), absent),
    ];
    for (pattern, add, delete) in cases {
        let store = 1;
        let types = AddTypes { store, pattern };
        let no_types = DeleteTypes { store, pattern };
        assert!(rt; answer(&stores, 64, &ForwardAdd(pattern)) == Some(add));
        assert!(rt; answer(&stores, 64, &types) == Some(add));
        assert!(rt; answer(&stores, 64, &ForwardDelete(pattern)) == Some(delete));
        assert!(rt; answer(&stores, 64, &no_types) == Some(delete));
    }
}

#[test]
fn there_are_32_stores(rt: HostRuntime) -> Result<(), Fail> {
    let mut all = Vec::new(rt.alloc());
    for identifier in 1..=32 {
        all.push(Row {
            identifier,
            size: 2,
            ..QUIET
        })?;
    }
    let Some(stores) = stores_of(rt.alloc(), &all) else {
        assert!(rt; false);
        return Ok(());
    };
    let limit = Err(Refusal::StoreLimit);
    let exists = Err(Refusal::StoreExists);
    assert!(rt; answer(&stores, 104, &create(33, 0, 0)) == Some(limit));
    assert!(rt; answer(&stores, 104, &create(32, 0, 0)) == Some(exists));
    Ok(())
}
