// Each call of a pool.

use super::*;
use std::test::Fail;

#[test]
fn a_new_pool_has_all_data_blocks(rt: HostRuntime) -> Result<(), Fail> {
    let pool = Pool::new(rt.alloc(), 16)?;
    assert_eq!(rt; pool.free(), 9);
    assert!(rt; !pool.is_free(6) && pool.is_free(7) && pool.is_free(15) && !pool.is_free(16));
    assert!(rt; !pool.is_ready(7));
    assert!(rt; pool.wear().iter().all(|count| *count == 0));
    assert_eq!(rt; pool.wear().len(), 16);
    Ok(())
}

#[test]
fn the_least_worn_block_is_taken(rt: HostRuntime) -> Result<(), Fail> {
    let mut pool = Pool::new(rt.alloc(), 16)?;
    pool.set_wear(7, 2);
    pool.set_wear(8, 1);
    pool.mark(9);
    assert_eq!(rt; pool.take(), 10);
    assert!(rt; !pool.is_free(9) && !pool.is_free(10) && pool.is_free(11));
    assert_eq!(rt; pool.free(), 7);
    Ok(())
}

#[test]
fn a_block_is_ready_from_its_erase_until_it_is_given_back(rt: HostRuntime) -> Result<(), Fail> {
    let mut pool = Pool::new(rt.alloc(), 16)?;
    pool.erased(7);
    assert!(rt; pool.is_ready(7));
    pool.mark(7);
    assert!(rt; pool.is_ready(7) && !pool.is_free(7));
    pool.give(7);
    assert!(rt; !pool.is_ready(7) && pool.is_free(7));
    pool.erased(0);
    pool.set_wear(8, u32::MAX);
    pool.erased(8);
    assert!(rt; !pool.is_ready(0));
    assert!(rt; pool.wear()[0] == 1 && pool.wear()[7] == 1 && pool.wear()[8] == u32::MAX);
    Ok(())
}

#[test]
fn stores_fit_if_one_data_block_is_left(rt: HostRuntime) {
    assert_eq!(rt; blocks_for(64), 3);
    assert_eq!(rt; blocks_for(240), 4);
    assert!(rt; fits(5, 3, 0, 16) && !fits(6, 3, 0, 16));
    assert!(rt; fits(8, 3, 3, 16) && !fits(8, 4, 3, 16));
}
