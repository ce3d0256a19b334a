// What no clause says: which directory is there after each stop, and after each call that fails.
use crate::script::{SCRIPT, open_on, run_script};
use board::{CallKind, MemBoard, Torn};
use meta_journal::format;
use std::alloc::Global;
use std::test::Fail;

const TORN: [Torn; 5] = [
    Torn::Done,
    Torn::Undone,
    Torn::Fill(0),
    Torn::Fill(0x5a),
    Torn::Fill(255),
];

// How many commits the device holds. None: it holds no directory, or not that of the script.
fn commits_on(alloc: Global, board: &mut MemBoard) -> Result<Option<u64>, Fail> {
    Ok(match open_on(alloc, board)? {
        Some(opened)
            if opened.directory.len() == 1
                && u64::from(opened.directory.reports()) == opened.directory.now() => {
            Some(opened.directory.now())
        }
        _ => None,
    })
}

// Whether each stop from a moment on leaves the commits that were acknowledged by then, and one
// more at most.
fn stops_leave_a_prefix(
    alloc: Global,
    board: &MemBoard,
    acknowledged: &[u64],
    from: u64,
) -> Result<bool, Fail> {
    for moment in from..=board.moments() {
        let least = acknowledged.iter().filter(|at| **at <= moment).count() as u64;
        for torn in TORN {
            let mut left = board.after_stop(alloc, moment, torn)?;
            match commits_on(alloc, &mut left)? {
                Some(count) if count == least || count == least.saturating_add(1) => {}
                _ => return Ok(false),
            }
        }
    }
    Ok(true)
}

#[test]
fn a_stop_leaves_the_acknowledged_commits(rt: HostRuntime) -> Result<(), Fail> {
    let alloc = rt.alloc();
    let mut board = MemBoard::new(alloc, 16)?;
    format(&mut board)?;
    let began = board.moments();
    let acknowledged = run_script(alloc, &mut board)?;
    assert_eq!(rt; acknowledged.len(), SCRIPT.len() - 2);
    assert!(rt; stops_leave_a_prefix(alloc, &board, &acknowledged, began)?);
    assert_eq!(rt; commits_on(alloc, &mut board)?, Some(7));
    Ok(())
}

// Lets a call of the script fail. Whether that ended the script, the stops at the end of it leave
// what was acknowledged, and the journal can be opened and goes on.
fn a_failure_is_told(alloc: Global, kind: CallKind, number: u64) -> Result<bool, Fail> {
    let mut board = MemBoard::new(alloc, 16)?;
    format(&mut board)?;
    board.plan(kind, number)?;
    let acknowledged = run_script(alloc, &mut board)?;
    let end = board.moments();
    if acknowledged.len() == SCRIPT.len() - 2
        || !stops_leave_a_prefix(alloc, &board, &acknowledged, end.saturating_sub(1))?
    {
        return Ok(false);
    }
    let again = run_script(alloc, &mut board)?;
    Ok(again.len() == SCRIPT.len() - 2 && commits_on(alloc, &mut board)? == Some(7))
}

#[test]
fn each_failing_call_leaves_the_acknowledged_commits(rt: HostRuntime) -> Result<(), Fail> {
    // the first and the last call of each kind behind a format
    let calls = [
        (CallKind::Program, 5, 26),
        (CallKind::Erase, 6, 15),
        (CallKind::Barrier, 9, 38),
    ];
    for (kind, first, last) in calls {
        for number in first..=last {
            assert!(rt;
                a_failure_is_told(rt.alloc(), kind, number)?,
                "call {number} of {kind:?}"
            );
        }
    }
    Ok(())
}
