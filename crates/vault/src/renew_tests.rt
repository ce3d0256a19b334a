// What no clause says: that a stale block is renewed at all, how often the board is called for that,
// and what a stop or a call that fails makes of it.
ghost use Rattle.std.specs.Prelude.{◌≡◌, true};
ghost use Rattle.board.specs.Memory.{flash_of};
ghost use Rattle.board.specs.Meaning.{TellsFlash};
ghost use Rattle.meta_journal.specs.Standing.{AllFirm};
ghost use Rattle.pst_model.specs.Table.{Table};
ghost use Rattle.vault.specs.Standing.{StandsFor};

use super::*;
use crate::image_writer::{HALVES, PACKET, Patch, device};
use board::{CallKind, MemBoard, Torn};
use space_packet::PacketView;
use std::alloc::Global;
use std::test::Fail;
use store_policy::View;

const TORN: [Torn; 4] = [Torn::Done, Torn::Undone, Torn::Fill(0x5a), Torn::Fill(0)];

// The octet of the first store's flags, off.
const ALL_OFF: Patch = (HALVES[0] + 22, 0);

// The last block of the first store, and the times of its two packets.
type State = (u16, [u64; 2]);

const BEFORE: State = (7, [4, 9]);

const AFTER: State = (8, [4, 9]);

fn state(vault: &Vault) -> Option<State>
    requires { vault.now.is_open ≡ true }
{
    let View {
        directory,
        indexes,
        blocks: _,
    } = vault.view();
    if directory.len() == 0 || indexes.is_empty() || indexes[0].len() != 2 {
        return None;
    }
    let index = &indexes[0];
    match directory.links(0).last() {
        Some(link) => Some((link.block, [index.entry(0).stamp, index.entry(1).stamp])),
        None => None,
    }
}

// The state of a table that is opened.
fn opened(alloc: Global, board: &mut MemBoard) -> Option<State> {
    match Vault::open(alloc, board) {
        Ok(vault) => state(&vault),
        Err(_) => None,
    }
}

// Renews for a packet that the first store takes if its storage is on: the state after it.
fn renewed(alloc: Global, board: &mut MemBoard) -> Option<State>
    requires { AllFirm (flash_of board.old) }
{
    let Ok(packet) = PacketView::read(&PACKET) else {
        return None;
    };
    let Ok(mut vault) = Vault::open(alloc, board) else {
        return None;
    };
    match vault.renew_for(board, &packet) {
        Ok(()) => state(&vault),
        Err(_) => None,
    }
}

// How many programs, erases and barriers there were.
fn work(board: &MemBoard) -> [u64; 3] {
    [
        board.count(CallKind::Program),
        board.count(CallKind::Erase),
        board.count(CallKind::Barrier),
    ]
}

#[test]
fn a_stale_block_is_renewed(rt: HostRuntime) -> Result<(), Fail> {
    let mut board = device(rt.alloc(), [0; 3], [true, false], &[])?;
    assert_eq!(rt; renewed(rt.alloc(), &mut board), Some(AFTER));
    // the switch takes 4, 5 and 8, the copies 2, 1 and 1, and the entry 2, 0 and 2
    assert_eq!(rt; work(&board), [8, 6, 11]);
    assert_eq!(rt; opened(rt.alloc(), &mut board), Some(AFTER));
    Ok(())
}

#[test]
fn a_store_that_does_not_take_the_packet_is_left_alone(rt: HostRuntime) -> Result<(), Fail> {
    let off: &[Patch] = &[ALL_OFF];
    let mut board = device(rt.alloc(), [0; 3], [true, false], off)?;
    assert_eq!(rt; renewed(rt.alloc(), &mut board), Some(BEFORE));
    assert_eq!(rt; work(&board), [0; 3]);
    Ok(())
}

#[test]
fn a_stop_leaves_the_same_packets(rt: HostRuntime) -> Result<(), Fail> {
    let mut board = device(rt.alloc(), [0; 3], [true, false], &[])?;
    assert_eq!(rt; renewed(rt.alloc(), &mut board), Some(AFTER));
    for moment in 0..board.moments().saturating_add(1) {
        for torn in TORN {
            let mut left = board.after_stop(rt.alloc(), moment, torn)?;
            let found = opened(rt.alloc(), &mut left);
            assert!(rt;
                found == Some(BEFORE) || found == Some(AFTER),
                "{moment} {torn:?}"
            );
        }
    }
    Ok(())
}

// Lets one call fail, and answers whether that is told, and the device has the same packets.
fn is_told(alloc: Global, kind: CallKind, number: u64) -> Result<bool, Fail> {
    let mut board = device(alloc, [0; 3], [true, false], &[])?;
    board.plan(kind, number)?;
    let failed = renewed(alloc, &mut board).is_none();
    let found = opened(alloc, &mut board);
    Ok(failed && (found == Some(BEFORE) || found == Some(AFTER)))
}

#[test]
fn a_call_that_fails_is_told(rt: HostRuntime) -> Result<(), Fail> {
    // the first copy, both pages of the entry, the fresh block's erase, and the barriers of the entry
    let calls = [
        (CallKind::Program, 5u64),
        (CallKind::Program, 7),
        (CallKind::Program, 8),
        (CallKind::Erase, 6),
        (CallKind::Barrier, 10),
        (CallKind::Barrier, 11),
    ];
    for (kind, number) in calls {
        let told = is_told(rt.alloc(), kind, number)?;
        assert!(rt; told, "{kind:?} {number}");
    }
    Ok(())
}
