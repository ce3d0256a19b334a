// What no clause says: that requests are carried out at all, and what a call that fails makes of the
// table.
ghost use Rattle.std.specs.Prelude.{◌≡◌, ◌<◌, true};
ghost use Rattle.board.specs.Meaning.{TellsFlash};
ghost use Rattle.meta_journal.specs.Standing.{StandsFor as JournalStandsFor};
ghost use Rattle.request_laws.specs.Counting.{CanBeCarried};

use super::*;
use crate::image_writer::{HALVES, Patch, device};
use board::{Board, CallKind, MemBoard};
use control_defs::{Instruction, Pattern, StoreKind};
use std::alloc::Global;
use std::test::Fail;
use store_policy::{Refusal, View};

// Whether packets of the first store are stored, and its open retrieval is on; how many patterns each
// store has, and how many are forwarded; the number of reports.
type State = (bool, bool, [usize; 2], usize, u16);

// How many instructions failed, and the first of them.
type Failed = (usize, Option<(u8, Refusal)>);

// The octet of the first store's flags, off.
const ALL_OFF: Patch = (HALVES[0] + 22, 0);

const APP: Pattern = Pattern::App(5);

fn state(vault: &Vault) -> Option<State>
    requires { vault.now.is_open ≡ true }
{
    let View {
        directory,
        indexes: _,
        blocks: _,
    } = vault.view();
    if directory.len() != 2 {
        return None;
    }
    let row = directory.row(0);
    Some((
        row.storage,
        row.open_on,
        [
            directory.patterns(0).list().len(),
            directory.patterns(1).list().len(),
        ],
        directory.forward().list().len(),
        directory.reports(),
    ))
}

// The state of a table that is opened.
fn opened(alloc: Global, board: &mut MemBoard) -> Option<State> {
    match Vault::open(alloc, board) {
        Ok(vault) => state(&vault),
        Err(_) => None,
    }
}

// What a request does to the device of two stores, with some octets changed: what failed, and the
// state afterwards. None if it was not carried out, or the state is another one when the device is
// opened again.
fn request(
    alloc: Global,
    patches: &[Patch],
    items: &[Instruction],
    acks: u8,
) -> Result<Option<(Failed, State)>, Fail>
    requires carried { CanBeCarried items.now }
    requires acks { acks < 16 }
{
    let mut board = device(alloc, [0; 3], [true, false], patches)?;
    let Ok(mut vault) = Vault::open(alloc, &mut board) else {
        return Ok(None);
    };
    let Ok(outcome) = vault.change(alloc, &mut board, items, acks) else {
        return Ok(None);
    };
    let Some(now) = state(&vault) else {
        return Ok(None);
    };
    if outcome.first_report != 7 || opened(alloc, &mut board) != Some(now) {
        return Ok(None);
    }
    let failed = (outcome.refused.len(), outcome.refused.first().copied());
    Ok(Some((failed, now)))
}

const NONE: Failed = (0, None);

#[test]
fn switches_take_effect_and_stay(rt: HostRuntime) -> Result<(), Fail> {
    let off: &[Patch] = &[ALL_OFF];
    let done = request(rt.alloc(), &[], &[Instruction::Disable(1)], 0)?;
    assert_eq!(rt; done, Some((NONE, (false, true, [1, 0], 0, 7))));
    let done = request(rt.alloc(), off, &[Instruction::Enable(1)], 1)?;
    assert_eq!(rt; done, Some((NONE, (true, false, [1, 0], 0, 8))));
    let done = request(rt.alloc(), &[], &[Instruction::Suspend(1)], 2)?;
    assert_eq!(rt; done, Some((NONE, (true, false, [1, 0], 0, 8))));
    let done = request(rt.alloc(), off, &[Instruction::Resume(1)], 8)?;
    assert_eq!(rt; done, Some((NONE, (false, true, [1, 0], 0, 8))));
    Ok(())
}

#[test]
fn patterns_come_and_go(rt: HostRuntime) -> Result<(), Fail> {
    let add = Instruction::AddTypes {
        store: 2,
        pattern: APP,
    };
    let done = request(rt.alloc(), &[], &[add], 0)?;
    assert_eq!(rt; done, Some((NONE, (true, true, [1, 1], 0, 7))));
    let delete = Instruction::DeleteTypes {
        store: 1,
        pattern: Pattern::Every,
    };
    let done = request(rt.alloc(), &[], &[delete], 0)?;
    assert_eq!(rt; done, Some((NONE, (true, true, [0, 0], 0, 7))));
    let done = request(rt.alloc(), &[], &[Instruction::ForwardAdd(APP)], 0)?;
    assert_eq!(rt; done, Some((NONE, (true, true, [1, 0], 1, 7))));
    let done = request(rt.alloc(), &[], &[Instruction::ForwardDelete(APP)], 0)?;
    // on the one that failed, and of completion
    let failed = (1, Some((1, Refusal::PatternAbsent)));
    assert_eq!(rt; done, Some((failed, (true, true, [1, 0], 0, 9))));
    Ok(())
}

#[test]
fn questions_count_their_reports(rt: HostRuntime) -> Result<(), Fail> {
    let done = request(rt.alloc(), &[], &[Instruction::Status], 0)?;
    assert_eq!(rt; done, Some((NONE, (true, true, [1, 0], 0, 8))));
    // on the one that failed, and of completion
    let done = request(rt.alloc(), &[], &[Instruction::Summary(9)], 0)?;
    let failed = (1, Some((1, Refusal::UnknownStore)));
    assert_eq!(rt; done, Some((failed, (true, true, [1, 0], 0, 9))));
    // of acceptance, of the start, the patterns, and of completion
    let done = request(rt.alloc(), &[], &[Instruction::ReportTypes(1)], 15)?;
    assert_eq!(rt; done, Some((NONE, (true, true, [1, 0], 0, 11))));
    let done = request(rt.alloc(), &[], &[Instruction::Configuration], 4)?;
    assert_eq!(rt; done, Some((NONE, (true, true, [1, 0], 0, 8))));
    let done = request(rt.alloc(), &[], &[Instruction::ForwardReport], 8)?;
    assert_eq!(rt; done, Some((NONE, (true, true, [1, 0], 0, 9))));
    Ok(())
}

// The first store's kind and channel, the position of its open retrieval, and its range.
type Place = (StoreKind, u8, u32, Option<(u32, u32)>);

fn place(vault: &Vault) -> Option<Place>
    requires { vault.now.is_open ≡ true }
{
    let View {
        directory,
        indexes: _,
        blocks: _,
    } = vault.view();
    if directory.len() != 2 {
        return None;
    }
    let row = directory.row(0);
    Some((row.kind, row.channel, row.behind, row.range))
}

// The place of the first store that is opened.
fn opened_place(alloc: Global, board: &mut MemBoard) -> Option<Place> {
    match Vault::open(alloc, board) {
        Ok(vault) => place(&vault),
        Err(_) => None,
    }
}

// The place of the first store behind a request, and how many of its instructions failed. None if it is
// another one when the device is opened again.
fn placed(
    alloc: Global,
    patches: &[Patch],
    items: &[Instruction],
) -> Result<Option<(Place, usize)>, Fail>
    requires carried { CanBeCarried items.now }
{
    let mut board = device(alloc, [0; 3], [true, false], patches)?;
    let Ok(mut vault) = Vault::open(alloc, &mut board) else {
        return Ok(None);
    };
    let Ok(outcome) = vault.change(alloc, &mut board, items, 0) else {
        return Ok(None);
    };
    let now = place(&vault);
    if opened_place(alloc, &mut board) != now {
        return Ok(None);
    }
    Ok(now.map(|place| (place, outcome.refused.len())))
}

const CIRCULAR: StoreKind = StoreKind::Circular;

// The times of the two packets are 4 and 9.
#[test]
fn ranges_start_and_end(rt: HostRuntime) -> Result<(), Fail> {
    let first = Instruction::StartRange {
        store: 1,
        t1: 4,
        t2: 8,
    };
    let done = placed(rt.alloc(), &[], &[first])?;
    assert_eq!(rt; done, Some(((CIRCULAR, 1, 1, Some((0, 1))), 0)));
    let second = Instruction::StartRange {
        store: 1,
        t1: 5,
        t2: 9,
    };
    // one range at a time
    let done = placed(rt.alloc(), &[], &[second, first])?;
    assert_eq!(rt; done, Some(((CIRCULAR, 1, 1, Some((1, 2))), 1)));
    let none = Instruction::StartRange {
        store: 1,
        t1: 5,
        t2: 8,
    };
    let done = placed(rt.alloc(), &[], &[none])?;
    assert_eq!(rt; done, Some(((CIRCULAR, 1, 1, None), 0)));
    let done = placed(rt.alloc(), &[], &[Instruction::Abort(1)])?;
    assert_eq!(rt; done, Some(((CIRCULAR, 1, 1, None), 1)));
    Ok(())
}

#[test]
fn open_retrieval_is_moved(rt: HostRuntime) -> Result<(), Fail> {
    let off: &[Patch] = &[ALL_OFF];
    let done = placed(rt.alloc(), off, &[Instruction::OpenFrom { store: 1, t: 4 }])?;
    assert_eq!(rt; done, Some(((CIRCULAR, 1, 0, None), 0)));
    let done = placed(
        rt.alloc(),
        off,
        &[Instruction::OpenFrom { store: 1, t: 10 }],
    )?;
    assert_eq!(rt; done, Some(((CIRCULAR, 1, 2, None), 0)));
    Ok(())
}

#[test]
fn kind_and_channel_are_changed(rt: HostRuntime) -> Result<(), Fail> {
    let off: &[Patch] = &[ALL_OFF];
    let done = placed(rt.alloc(), off, &[Instruction::ToBounded(1)])?;
    assert_eq!(rt; done, Some(((StoreKind::Bounded, 1, 1, None), 0)));
    let done = placed(rt.alloc(), off, &[Instruction::ToCircular(1)])?;
    assert_eq!(rt; done, Some(((CIRCULAR, 1, 1, None), 1)));
    let seven = Instruction::Channel {
        store: 1,
        channel: 7,
    };
    let done = placed(rt.alloc(), off, &[seven])?;
    assert_eq!(rt; done, Some(((CIRCULAR, 7, 1, None), 0)));
    Ok(())
}

// How many stores there are; of the first one the number of its first record, how many packets it has, and
// the position of its open retrieval; and whether its last block is stale.
type Left = (u32, (u32, u32, u32), bool);

fn left(vault: &Vault) -> Option<Left>
    requires { vault.now.is_open ≡ true }
{
    let View {
        directory,
        indexes: _,
        blocks: _,
    } = vault.view();
    if directory.len() == 0 {
        return None;
    }
    let row = directory.row(0);
    let place = (row.first, row.count, row.behind);
    Some((directory.len(), place, vault.stale(0)))
}

// What is left when the device is opened.
fn opened_left(alloc: Global, board: &mut MemBoard) -> Option<Left> {
    match Vault::open(alloc, board) {
        Ok(vault) => left(&vault),
        Err(_) => None,
    }
}

// What is left behind a request, and how many of its instructions failed. None if it is something else
// when the device is opened again.
fn deleted(
    alloc: Global,
    patches: &[Patch],
    items: &[Instruction],
) -> Result<Option<(Left, usize)>, Fail>
    requires carried { CanBeCarried items.now }
{
    let mut board = device(alloc, [0; 3], [true, false], patches)?;
    let Ok(mut vault) = Vault::open(alloc, &mut board) else {
        return Ok(None);
    };
    let Ok(outcome) = vault.change(alloc, &mut board, items, 0) else {
        return Ok(None);
    };
    let now = left(&vault);
    if opened_left(alloc, &mut board) != now {
        return Ok(None);
    }
    Ok(now.map(|left| (left, outcome.refused.len())))
}

// The times of the two packets are 4 and 9, and the first one was retrieved.
#[test]
fn packets_leave_the_front(rt: HostRuntime) -> Result<(), Fail> {
    let off: &[Patch] = &[ALL_OFF];
    let none = Instruction::DeleteUpTo { store: 1, t: 3 };
    let done = deleted(rt.alloc(), off, &[none])?;
    assert_eq!(rt; done, Some(((2, (6, 2, 1), true), 0)));
    let first = Instruction::DeleteUpTo { store: 1, t: 4 };
    let done = deleted(rt.alloc(), off, &[first])?;
    assert_eq!(rt; done, Some(((2, (7, 1, 0), true), 0)));
    let both = Instruction::DeleteUpTo { store: 1, t: 9 };
    let done = deleted(rt.alloc(), off, &[first, both])?;
    assert_eq!(rt; done, Some(((2, (8, 0, 0), false), 0)));
    // open retrieval is on
    let done = deleted(rt.alloc(), &[], &[both])?;
    assert_eq!(rt; done, Some(((2, (6, 2, 1), true), 1)));
    Ok(())
}

#[test]
fn stores_go(rt: HostRuntime) -> Result<(), Fail> {
    let off: &[Patch] = &[ALL_OFF];
    // the storage of the second store is on, and the first one goes once
    let items = [
        Instruction::Remove(2),
        Instruction::Remove(1),
        Instruction::Remove(1),
    ];
    let done = deleted(rt.alloc(), off, &items)?;
    assert_eq!(rt; done, Some(((1, (0, 0, 0), false), 2)));
    Ok(())
}

#[test]
fn the_others_stand_if_one_fails(rt: HostRuntime) -> Result<(), Fail> {
    let items = [
        Instruction::Disable(2),
        Instruction::Disable(9),
        Instruction::Disable(1),
    ];
    let done = request(rt.alloc(), &[], &items, 15)?;
    // of acceptance, on the one that failed, and of completion
    let failed = (1, Some((2, Refusal::UnknownStore)));
    assert_eq!(rt; done, Some((failed, (false, true, [1, 0], 0, 10))));
    Ok(())
}

// How many of two requests answer Ok: the storage of the boot store is ended, and then its open
// retrieval. The first one makes room.
fn carried<B: Board>(vault: &mut Vault, alloc: Global, board: &mut B) -> u16
    requires is_open { vault.old.is_open ≡ true }
    requires blocks { vault.old.blocks ≡ (B.means.device board.old).blocks }
    requires journal { TellsFlash B.means board.old
        → JournalStandsFor vault.old.journal (B.means.flash board.old) }
{
    let items = [Instruction::Disable(1)];
    let Ok(_) = vault.change(alloc, board, &items, 0) else {
        return 0;
    };
    let items = [Instruction::Suspend(1)];
    let Ok(_) = vault.change(alloc, board, &items, 0) else {
        return 1;
    };
    2
}

// The same on a device that is formatted and opened first; None if that failed.
fn session<B: Board>(alloc: Global, board: &mut B) -> Option<u16> {
    if Vault::format(board).is_err() {
        return None;
    }
    match Vault::open(alloc, board) {
        Ok(mut vault) => Some(carried(&mut vault, alloc, board)),
        Err(_) => None,
    }
}

// How many of the two requests a device holds; None if it was not opened.
fn held(alloc: Global, board: &mut MemBoard) -> Option<u16> {
    match Vault::open(alloc, board) {
        Ok(vault) => {
            let View {
                directory,
                indexes: _,
                blocks: _,
            } = vault.view();
            if directory.len() == 0 {
                return None;
            }
            let row = directory.row(0);
            Some(u16::from(!row.storage) + u16::from(!row.open_on))
        }
        Err(_) => None,
    }
}

#[test]
fn a_request_is_one_entry(rt: HostRuntime) -> Result<(), Fail> {
    let mut board = MemBoard::new(rt.alloc(), 16)?;
    assert_eq!(rt; session(rt.alloc(), &mut board), Some(2));
    // a format takes 4, 5 and 8, the switch 4, 5 and 8, and each request 2, 0 and 2
    let work = [
        board.count(CallKind::Program),
        board.count(CallKind::Erase),
        board.count(CallKind::Barrier),
    ];
    assert_eq!(rt; work, [12, 10, 20]);
    assert_eq!(rt; held(rt.alloc(), &mut board), Some(2));
    Ok(())
}

// Lets one call fail, and answers whether fewer requests answered then, and the device holds those or
// one more.
fn is_told(alloc: Global, kind: CallKind, number: u64) -> Result<bool, Fail> {
    let mut board = MemBoard::new(alloc, 16)?;
    board.plan(kind, number)?;
    let Some(done) = session(alloc, &mut board) else {
        return Ok(false);
    };
    let Some(held) = held(alloc, &mut board) else {
        return Ok(false);
    };
    Ok(done < 2 && (held == done || held == done.saturating_add(1)))
}

#[test]
fn each_call_that_fails_is_told(rt: HostRuntime) -> Result<(), Fail> {
    // the calls of each kind that a format takes, and all of them
    let kinds = [
        (CallKind::Program, 4u64, 12u64),
        (CallKind::Erase, 5, 10),
        (CallKind::Barrier, 8, 20),
    ];
    for (kind, before, all) in kinds {
        for number in before..all {
            let told = is_told(rt.alloc(), kind, number.saturating_add(1))?;
            assert!(rt; told, "{kind:?} {number}");
        }
    }
    Ok(())
}
