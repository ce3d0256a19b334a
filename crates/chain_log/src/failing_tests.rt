// Power losses and calls that fail.
ghost use Rattle.std.specs.Prelude.{◌≡◌};
ghost use Rattle.board.specs.Memory.{device_of};

use super::*;
use crate::tests::{are_loaded, count_in_block, put_all, with_change};
use board::{Board, CallKind, Failed, MemBoard, Torn};
use record_view::Link;
use std::test::Fail;

const TORN: [Torn; 4] = [Torn::Done, Torn::Undone, Torn::Fill(0), Torn::Fill(0xff)];

// Whether all pages of two devices of 16 blocks hold the same, but those of block 8 in this range.
fn agree(one: &MemBoard, other: &MemBoard, from: u32, to: u32) -> bool
    requires one { (device_of one.now).blocks ≡ 16 }
    requires other { (device_of other.now).blocks ≡ 16 }
{
    for block in 0..16 {
        for page in 0..256 {
            let apart = block == 8 && from <= page && page < to;
            if !apart && one.page(block, page) != other.page(block, page) {
                return false;
            }
        }
    }
    true
}

#[test]
fn a_stop_leaves_all_other_pages(rt: HostRuntime) -> Result<(), Fail> {
    let alloc = rt.alloc();
    let (Some(before), Some(mut board)) = (with_change(alloc, 0, 1)?, with_change(alloc, 0, 1)?)
    else {
        panic!(rt; "no packet");
    };
    let mut tail = Tail::begin(&mut board, 8)?;
    assert!(rt; put_all(alloc, &mut board, &mut tail, 0, &[400])?);
    for moment in 0..=board.moments() {
        for torn in TORN {
            let left = board.after_stop(alloc, moment, torn)?;
            assert!(rt; agree(&left, &before, 0, 256), "moment {moment}");
        }
    }
    board.barrier()?;
    let firm = board.moments();
    let before = board.after_stop(alloc, firm, Torn::Undone)?;
    assert!(rt; put_all(alloc, &mut board, &mut tail, 1, &[600])?);
    assert_eq!(rt; tail.used(), 5);
    for moment in firm..=board.moments() {
        for torn in TORN {
            let mut left = board.after_stop(alloc, moment, torn)?;
            assert!(rt; agree(&left, &before, 2, 5), "moment {moment}");
            assert!(rt; are_loaded(&mut left, 8, 0, &[400]));
        }
    }
    Ok(())
}

#[test]
fn a_tail_does_not_begin_if_a_call_fails(rt: HostRuntime) -> Result<(), Fail> {
    for kind in [CallKind::Erase, CallKind::Barrier] {
        let mut board = MemBoard::new(rt.alloc(), 16)?;
        board.plan(kind, 1)?;
        assert!(rt; Tail::begin(&mut board, 7).is_err());
        assert!(rt; Tail::begin(&mut board, 7).is_ok());
    }
    Ok(())
}

#[test]
fn no_record_fits_a_tail_whose_append_failed(rt: HostRuntime) -> Result<(), Fail> {
    for number in 1..4 {
        let mut board = MemBoard::new(rt.alloc(), 16)?;
        let mut tail = Tail::ready(7);
        board.plan(CallKind::Program, number)?;
        assert!(rt; !put_all(rt.alloc(), &mut board, &mut tail, 0, &[600])?);
        assert_eq!(rt; board.count(CallKind::Program), number);
        assert_eq!(rt; tail.used(), 256);
        assert!(rt; !tail.fits(7));
    }
    Ok(())
}

const PLACE: Place = Place {
    block: 7,
    page: 0,
    length: 600,
};

#[test]
fn a_read_that_fails_is_a_flash_fault(rt: HostRuntime) -> Result<(), Fail> {
    let mut buf = [0; 4352];
    let mut board = MemBoard::new(rt.alloc(), 16)?;
    for number in [1, 3, 6, 262] {
        board.plan(CallKind::Read, number)?;
    }
    for reads in [1, 3, 6] {
        assert!(rt;
            matches!(
                load_record(&mut board, PLACE, 0, &mut buf),
                Err(LoadFault::Flash)
            )
        );
        assert_eq!(rt; board.count(CallKind::Read), reads);
    }
    let link = Link { block: 7, first: 0 };
    assert_eq!(rt; count_in_block(rt.alloc(), &mut board, link, 1)?, None);
    assert_eq!(rt;
        count_in_block(rt.alloc(), &mut board, link, 1)?,
        Some((1, 0))
    );
    Ok(())
}

#[test]
fn a_copy_has_its_own_number_and_the_stamp_that_was_read(rt: HostRuntime) -> Result<(), Fail> {
    let mut buf = [0; 8704];
    let mut board = MemBoard::new(rt.alloc(), 16)?;
    let mut tail = Tail::ready(7);
    assert!(rt; put_all(rt.alloc(), &mut board, &mut tail, 5, &[600])?);
    assert_eq!(rt; tail.used(), 3);
    let copied = copy_record(&mut board, PLACE, 5, 6, &mut tail, &mut buf);
    assert!(rt; matches!(copied, Ok(3)));
    assert_eq!(rt; tail.used(), 6);
    let copied = copy_record(&mut board, PLACE, 4, 7, &mut tail, &mut buf);
    assert!(rt;
        matches!(
            copied,
            Err(LoadFault::Mismatch {
                kept: 4,
                found: 5,
                ..
            })
        )
    );
    assert_eq!(rt; tail.used(), 6);
    assert_eq!(rt; board.count(CallKind::Program), 6);
    assert!(rt; are_loaded(&mut board, 7, 5, &[600, 600]));
    Ok(())
}

#[test]
fn a_copy_that_fails_shuts_its_tail_or_leaves_it(rt: HostRuntime) -> Result<(), Fail> {
    let mut buf = [0; 8704];
    for (kind, number, used) in [
        (CallKind::Read, 1, 3),
        (CallKind::Read, 3, 3),
        (CallKind::Program, 4, 256),
        (CallKind::Program, 6, 256),
    ] {
        let mut board = MemBoard::new(rt.alloc(), 16)?;
        let mut tail = Tail::ready(7);
        assert!(rt; put_all(rt.alloc(), &mut board, &mut tail, 0, &[600])?);
        assert_eq!(rt; tail.used(), 3);
        board.plan(kind, number)?;
        let copied = copy_record(&mut board, PLACE, 0, 1, &mut tail, &mut buf);
        assert!(rt; matches!(copied, Err(LoadFault::Flash)));
        assert_eq!(rt; tail.used(), used);
    }
    Ok(())
}
