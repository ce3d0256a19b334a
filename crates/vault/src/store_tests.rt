// What no clause says: that packets are stored at all, what a stop at each moment leaves, and what a
// call that fails makes of the table.
ghost use Rattle.std.specs.Prelude.{◌≡◌, ◌<◌, ◌^◌, true};
ghost use Rattle.board.specs.Meaning.{TellsFlash};
ghost use Rattle.pst_model.specs.Table.{Table};
ghost use Rattle.vault.specs.Standing.{StandsFor};

use super::*;
use crate::image_writer::{PACKET, device};
use board::{Board, CallKind, MemBoard, Torn};
use space_packet::PacketView;
use std::alloc::Global;
use std::test::Fail;
use store_policy::View;

const TORN: [Torn; 4] = [Torn::Done, Torn::Undone, Torn::Fill(0x5a), Torn::Fill(0)];

// An idle packet.
const IDLE: [u8; 8] = [7, 255, 0xc0, 0, 0, 1, 17, 18];

// The time, the number of reports, and how many packets the first store has.
type State = (u64, u16, u32);

fn state(vault: &Vault) -> Option<State>
    requires { vault.now.is_open ≡ true }
{
    let View {
        directory,
        indexes: _,
        blocks: _,
    } = vault.view();
    if directory.len() == 0 {
        return None;
    }
    Some((directory.now(), directory.reports(), directory.row(0).count))
}

// The state of a table that is opened.
fn opened(alloc: Global, board: &mut MemBoard) -> Option<State> {
    match Vault::open(alloc, board) {
        Ok(vault) => state(&vault),
        Err(_) => None,
    }
}

// Whether a packet that arrives is stored, is not forwarded, and no store refuses it.
fn is_stored<B: Board>(vault: &mut Vault, board: &mut B, moment: u64, octets: &[u8]) -> bool
    requires is_open { vault.old.is_open ≡ true }
    requires blocks { vault.old.blocks ≡ (B.means.device board.old).blocks }
    requires moment { moment < 2 ^ 48 }
    requires flash { TellsFlash B.means board.old
        → (table : Table) × StandsFor vault.old (B.means.flash board.old) table }
{
    if octets.len() > 4096 {
        return false;
    }
    let Ok(packet) = PacketView::read(octets) else {
        return false;
    };
    match vault.store(board, moment, packet) {
        Ok(outcome) => !outcome.forwarded && outcome.refused.is_empty(),
        Err(_) => false,
    }
}

// Whether a packet is stored on a device that is formatted and opened first; None if that failed.
fn session<B: Board>(alloc: Global, board: &mut B) -> Option<bool> {
    if Vault::format(board).is_err() {
        return None;
    }
    match Vault::open(alloc, board) {
        Ok(mut vault) => Some(is_stored(&mut vault, board, 1000, &PACKET)),
        Err(_) => None,
    }
}

#[test]
fn a_packet_is_stored_and_stays(rt: HostRuntime) -> Result<(), Fail> {
    let mut board = MemBoard::new(rt.alloc(), 16)?;
    assert_eq!(rt; session(rt.alloc(), &mut board), Some(true));
    // a format takes 4 programs, 5 erases and 8 barriers, the switch the same, a new block 0, 1 and
    // 1, the record 1, 0 and 0, and the entry 2, 0 and 2
    let work = [
        board.count(CallKind::Program),
        board.count(CallKind::Erase),
        board.count(CallKind::Barrier),
    ];
    assert_eq!(rt; work, [11, 11, 19]);
    assert_eq!(rt; board.sent().len(), 0);
    for torn in TORN {
        let mut left = board.after_stop(rt.alloc(), board.moments(), torn)?;
        assert_eq!(rt;
            opened(rt.alloc(), &mut left),
            Some((1000, 0, 1)),
            "{torn:?}"
        );
    }
    Ok(())
}

#[test]
fn a_stop_leaves_all_of_an_arrival_or_nothing(rt: HostRuntime) -> Result<(), Fail> {
    let mut board = MemBoard::new(rt.alloc(), 16)?;
    assert_eq!(rt; session(rt.alloc(), &mut board), Some(true));
    // a format takes 17 steps of the flash
    for moment in 17..board.moments() {
        for torn in TORN {
            let mut left = board.after_stop(rt.alloc(), moment, torn)?;
            let Some(held) = opened(rt.alloc(), &mut left) else {
                panic!(rt; "not opened at {moment}");
            };
            assert!(rt;
                held == (0, 0, 0) || held == (1000, 0, 1),
                "{moment} {torn:?}"
            );
        }
    }
    Ok(())
}

// Lets one call fail, and answers whether the packet was not stored then, and the device has all of
// it or nothing.
fn is_told(alloc: Global, kind: CallKind, number: u64) -> Result<bool, Fail> {
    let mut board = MemBoard::new(alloc, 16)?;
    board.plan(kind, number)?;
    let done = session(alloc, &mut board);
    let held = opened(alloc, &mut board);
    Ok(done == Some(false) && (held == Some((0, 0, 0)) || held == Some((1000, 0, 1))))
}

#[test]
fn each_call_that_fails_is_told(rt: HostRuntime) -> Result<(), Fail> {
    // the calls of each kind that a format takes, and all of them
    let kinds = [
        (CallKind::Program, 4u64, 11u64),
        (CallKind::Erase, 5, 11),
        (CallKind::Barrier, 8, 19),
    ];
    for (kind, before, all) in kinds {
        for number in before..all {
            let told = is_told(rt.alloc(), kind, number.saturating_add(1))?;
            assert!(rt; told, "{kind:?} {number}");
        }
    }
    Ok(())
}

// Whether the first store's last block is stale; None if there is no store.
fn is_stale(vault: &Vault) -> Option<bool>
    requires { vault.now.is_open ≡ true }
{
    let View {
        directory,
        indexes: _,
        blocks: _,
    } = vault.view();
    if directory.len() == 0 {
        return None;
    }
    Some(vault.stale(0))
}

// What an arriving packet makes of the device of two stores, and whether the first one's last block
// is stale afterwards. None if it was not stored, or the state is another one when the device is
// opened again.
fn arrived(alloc: Global, moment: u64, octets: &[u8]) -> Result<Option<(State, bool)>, Fail>
    requires { moment < 2 ^ 48 }
{
    let mut board = device(alloc, [0; 3], [true, false], &[])?;
    let Ok(mut vault) = Vault::open(alloc, &mut board) else {
        return Ok(None);
    };
    if !is_stored(&mut vault, &mut board, moment, octets) || !vault.is_open() {
        return Ok(None);
    }
    let Some(now) = state(&vault) else {
        return Ok(None);
    };
    let Some(stale) = is_stale(&vault) else {
        return Ok(None);
    };
    if opened(alloc, &mut board) != Some(now) {
        return Ok(None);
    }
    Ok(Some((now, stale)))
}

#[test]
fn a_stale_block_is_renewed_and_takes_the_packet(rt: HostRuntime) -> Result<(), Fail> {
    let behind = arrived(rt.alloc(), 20, &PACKET)?;
    assert_eq!(rt; behind, Some(((20, 7, 3), false)));
    // the time does not fall
    let behind = arrived(rt.alloc(), 5, &PACKET)?;
    assert_eq!(rt; behind, Some(((9, 7, 3), false)));
    Ok(())
}

#[test]
fn an_idle_packet_changes_the_time_alone(rt: HostRuntime) -> Result<(), Fail> {
    let behind = arrived(rt.alloc(), 20, &IDLE)?;
    assert_eq!(rt; behind, Some(((20, 7, 2), true)));
    Ok(())
}
