// A format that is stopped at each step. What a power loss leaves is the table from before, then none
// or not, and then the table after a format.

use super::tables::{entries_image, formatted_image, full_image};
use super::{board_of, listing_of, session, stopped};
use board::{CallKind, MemBoard, Torn};
use station::Ending;
use std::alloc::Global;
use std::process::Abort;
use std::test::Fail;

/// How far a format has come, by what a stop leaves.
#[derive(Clone, Copy, Debug, PartialEq, Eq, PartialOrd, Ord)]
enum Stage {
    Before,
    NoTable,
    After,
}

fn stage_of(
    rt: &impl Abort,
    alloc: Global,
    left: &mut MemBoard,
    before: &Vec<u8>,
    after: &Vec<u8>,
) -> Result<Stage, Fail> {
    let ending = session(alloc, left, "list", b"")?;
    if ending == Ending::NotHeld {
        return Ok(Stage::NoTable);
    }
    assert_eq!(rt; ending, Ending::Done);
    if left.sent() == before.as_slice() {
        return Ok(Stage::Before);
    }
    assert!(rt; left.sent() == after.as_slice());
    Ok(Stage::After)
}

// Stops the format of an image at each step.
fn stop_format(rt: &impl Abort, alloc: Global, image: Vec<u8>, torn: Torn) -> Result<(), Fail> {
    let before = listing_of(rt, alloc, image.clone()?)?;
    let after = listing_of(rt, alloc, formatted_image(alloc)?)?;
    let mut board = board_of(rt, alloc, image)?;
    let ending = session(alloc, &mut board, "format", b"")?;
    assert_eq!(rt; ending, Ending::Done);
    assert_eq!(rt; board.count(CallKind::Program), 4);
    assert_eq!(rt; board.count(CallKind::Erase), 5);
    let mut last = Stage::Before;
    for moment in 0..board.moments().saturating_add(1) {
        let mut left = stopped(rt, alloc, &board, moment, torn)?;
        let stage = stage_of(rt, alloc, &mut left, &before, &after)?;
        assert!(rt; last <= stage, "step {moment}, {torn:?}");
        assert!(rt; moment > 0 || stage == Stage::Before, "{torn:?}");
        last = stage;
    }
    assert_eq!(rt; last, Stage::After, "{torn:?}");
    Ok(())
}

#[test]
fn a_stopped_format_leaves_one_table_or_none(rt: HostRuntime) -> Result<(), Fail> {
    let alloc = rt.alloc();
    let torns = [
        Torn::Done,
        Torn::Undone,
        Torn::Fill(0),
        Torn::Fill(0x5a),
        Torn::Fill(255),
    ];
    for torn in torns {
        stop_format(&rt, alloc, entries_image(alloc)?, torn)?;
        stop_format(&rt, alloc, full_image(alloc)?, torn)?;
    }
    Ok(())
}
