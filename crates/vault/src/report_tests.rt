// What no clause says: that reports are counted at all, what a stop at each moment leaves, and what
// a call that fails makes of the count.
ghost use Rattle.std.specs.Prelude.{◌≡◌, true};
ghost use Rattle.board.specs.Meaning.{TellsFlash};
ghost use Rattle.meta_journal.specs.Standing.{StandsFor as JournalStandsFor};

use super::*;
use board::{Board, CallKind, MemBoard, Torn};
use std::alloc::Global;
use std::test::Fail;
use store_policy::View;

const TORN: [Torn; 4] = [Torn::Done, Torn::Undone, Torn::Fill(0x5a), Torn::Fill(0)];

// How many of three reports answer Ok, each with its number. The first one makes room.
fn counted<B: Board>(vault: &mut Vault, board: &mut B) -> u16
    requires is_open { vault.old.is_open ≡ true }
    requires blocks { vault.old.blocks ≡ (B.means.device board.old).blocks }
    requires journal { TellsFlash B.means board.old
        → JournalStandsFor vault.old.journal (B.means.flash board.old) }
{
    let Ok(0) = vault.report(board) else {
        return 0;
    };
    let Ok(1) = vault.report(board) else {
        return 1;
    };
    let Ok(2) = vault.report(board) else {
        return 2;
    };
    3
}

// The same on a device that is formatted and opened first; None if that failed.
fn session<B: Board>(alloc: Global, board: &mut B) -> Option<u16> {
    if Vault::format(board).is_err() {
        return None;
    }
    match Vault::open(alloc, board) {
        Ok(mut vault) => Some(counted(&mut vault, board)),
        Err(_) => None,
    }
}

// The count of the table that a device holds; None if it was not opened.
fn count_of(alloc: Global, board: &mut MemBoard) -> Option<u16> {
    match Vault::open(alloc, board) {
        Ok(vault) => {
            let View {
                directory,
                indexes: _,
                blocks: _,
            } = vault.view();
            Some(directory.reports())
        }
        Err(_) => None,
    }
}

// How many programs, erases and barriers there were.
fn work(board: &MemBoard) -> [u64; 3] {
    [
        board.count(CallKind::Program),
        board.count(CallKind::Erase),
        board.count(CallKind::Barrier),
    ]
}

#[test]
fn reports_are_counted_and_stay(rt: HostRuntime) -> Result<(), Fail> {
    let mut board = MemBoard::new(rt.alloc(), 16)?;
    assert_eq!(rt; session(rt.alloc(), &mut board), Some(3));
    // a format takes 4, 5 and 8, the switch 4, 5 and 8, and each report 2, 0 and 2
    assert_eq!(rt; work(&board), [14, 10, 22]);
    assert_eq!(rt; board.sent().len(), 0);
    for torn in TORN {
        let mut left = board.after_stop(rt.alloc(), board.moments(), torn)?;
        assert_eq!(rt; count_of(rt.alloc(), &mut left), Some(3), "{torn:?}");
    }
    Ok(())
}

// How many of the three reports had answered when so many steps of the flash were done. A format
// takes 17, the switch 17, and each report 4.
fn answered(steps: u64) -> u16 {
    match steps {
        0..38 => 0,
        38..42 => 1,
        42..46 => 2,
        _ => 3,
    }
}

#[test]
fn a_stop_keeps_each_report_that_answered(rt: HostRuntime) -> Result<(), Fail> {
    let mut board = MemBoard::new(rt.alloc(), 16)?;
    assert_eq!(rt; session(rt.alloc(), &mut board), Some(3));
    assert_eq!(rt; board.moments(), 46);
    for moment in 17..47 {
        let least = answered(moment);
        for torn in TORN {
            let mut left = board.after_stop(rt.alloc(), moment, torn)?;
            let Some(count) = count_of(rt.alloc(), &mut left) else {
                panic!(rt; "not opened at {moment}");
            };
            assert!(rt;
                count == least || count == least.saturating_add(1),
                "{moment} {torn:?}"
            );
        }
    }
    Ok(())
}

// Lets one call fail, and answers whether fewer reports answered then, and the device counts those
// or one more.
fn is_told(alloc: Global, kind: CallKind, number: u64) -> Result<bool, Fail> {
    let mut board = MemBoard::new(alloc, 16)?;
    board.plan(kind, number)?;
    let Some(done) = session(alloc, &mut board) else {
        return Ok(false);
    };
    let Some(count) = count_of(alloc, &mut board) else {
        return Ok(false);
    };
    Ok(done < 3 && (count == done || count == done.saturating_add(1)))
}

#[test]
fn each_call_that_fails_is_told(rt: HostRuntime) -> Result<(), Fail> {
    // the calls of each kind that a format takes, and all of them
    let kinds = [
        (CallKind::Program, 4u64, 14u64),
        (CallKind::Erase, 5, 10),
        (CallKind::Barrier, 8, 22),
    ];
    for (kind, before, all) in kinds {
        for number in before..all {
            let told = is_told(rt.alloc(), kind, number.saturating_add(1))?;
            assert!(rt; told, "{kind:?} {number}");
        }
    }
    Ok(())
}
