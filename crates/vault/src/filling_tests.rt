// What no clause says: what many arrivals make of a store, one after another, and a stop while a block
// is begun, or given back.
ghost use Rattle.std.specs.Prelude.{◌≡◌, true};
ghost use Rattle.board.specs.Memory.{flash_of};
ghost use Rattle.board.specs.Meaning.{TellsFlash};
ghost use Rattle.meta_journal.specs.Standing.{AllFirm};
ghost use Rattle.pst_model.specs.Table.{Table};
ghost use Rattle.vault.specs.Standing.{StandsFor};

use super::*;
use crate::image_writer::{HALVES, PACKET, Patch, device};
use board::{Board, MemBoard, Torn};
use space_packet::PacketView;
use std::alloc::Global;
use std::test::Fail;
use store_policy::View;

const TORN: [Torn; 4] = [Torn::Done, Torn::Undone, Torn::Fill(0x5a), Torn::Fill(0)];

// The octet of the first store's kind, bounded. It has 64 pages.
const BOUNDED: Patch = (HALVES[0] + 16, 1);

// Of the first store how many packets it has, the time of the last one, and how many blocks; the
// number of reports, and the time.
type State = (u32, u64, usize, u16, u64);

fn state(vault: &Vault) -> Option<State>
    requires { vault.now.is_open ≡ true }
{
    let View {
        directory,
        indexes,
        blocks: _,
    } = vault.view();
    if directory.len() == 0 || indexes.is_empty() || indexes[0].len() == 0 {
        return None;
    }
    let count = indexes[0].len();
    Some((
        count,
        indexes[0].entry(count - 1).stamp,
        directory.links(0).len(),
        directory.reports(),
        directory.now(),
    ))
}

// The state of a table that is opened.
fn opened(alloc: Global, board: &mut MemBoard) -> Option<State> {
    match Vault::open(alloc, board) {
        Ok(vault) => state(&vault),
        Err(_) => None,
    }
}

// Stores a packet at so many times, from 10 on. How many were stored, and how many refusals were told.
fn store_all<B: Board>(
    vault: &mut Vault,
    board: &mut B,
    packet: PacketView<'_>,
    count: u16,
) -> (u16, u32)
    requires is_open { vault.old.is_open ≡ true }
    requires blocks { vault.old.blocks ≡ (B.means.device board.old).blocks }
    requires flash { TellsFlash B.means board.old
        → (table : Table) × StandsFor vault.old (B.means.flash board.old) table }
{
    let mut told = 0u32;
    for done in 0..count {
        match vault.store(board, 10 + u64::from(done), packet) {
            Ok(outcome) => told = told.saturating_add(outcome.refused.len() as u32),
            Err(_) => return (done, told),
        }
    }
    (count, told)
}

// Opens a device of two stores, the first of which has two packets, and stores so many more.
fn session(alloc: Global, board: &mut MemBoard, count: u16) -> Option<(u16, u32)>
    requires { AllFirm (flash_of board.old) }
{
    let Ok(packet) = PacketView::read(&PACKET) else {
        return None;
    };
    match Vault::open(alloc, board) {
        Ok(mut vault) => Some(store_all(&mut vault, board, packet, count)),
        Err(_) => None,
    }
}

#[test]
fn packets_leave_the_front_with_their_blocks(rt: HostRuntime) -> Result<(), Fail> {
    let mut board = device(rt.alloc(), [0; 3], [true, false], &[])?;
    assert_eq!(rt; session(rt.alloc(), &mut board, 700), Some((700, 0)));
    assert_eq!(rt; opened(rt.alloc(), &mut board), Some((64, 709, 1, 7, 709)));
    Ok(())
}

#[test]
fn a_refusal_is_told_once(rt: HostRuntime) -> Result<(), Fail> {
    let patches: &[Patch] = &[BOUNDED];
    let mut board = device(rt.alloc(), [0; 3], [true, false], patches)?;
    assert_eq!(rt; session(rt.alloc(), &mut board, 66), Some((66, 1)));
    assert_eq!(rt; opened(rt.alloc(), &mut board), Some((64, 71, 1, 8, 75)));
    Ok(())
}

// Whether each stop in the last so many steps, behind so many arrivals, leaves the last 64 packets of
// these, or of all but one or two.
fn stops_leave_all(alloc: Global, count: u16, steps: u64) -> Result<bool, Fail> {
    let mut board = device(alloc, [0; 3], [true, false], &[])?;
    if session(alloc, &mut board, count) != Some((count, 0)) {
        return Ok(false);
    }
    let all = board.moments();
    for moment in all.saturating_sub(steps)..all.saturating_add(1) {
        for torn in TORN {
            let mut left = board.after_stop(alloc, moment, torn)?;
            let Some((kept, last, _, 7, now)) = opened(alloc, &mut left) else {
                return Ok(false);
            };
            let least = u64::from(count).saturating_add(7);
            if kept != 64 || last != now || last < least || last > least.saturating_add(2) {
                return Ok(false);
            }
        }
    }
    Ok(true)
}

// With the 238th arrival 240 pages of the renewed block are in use, so the next one begins another;
// the 302nd lets the last record of the old one go.
#[test]
fn a_stop_while_a_block_comes_or_goes_leaves_each_packet(rt: HostRuntime) -> Result<(), Fail> {
    assert!(rt; stops_leave_all(rt.alloc(), 239, 12)?);
    assert!(rt; stops_leave_all(rt.alloc(), 302, 10)?);
    Ok(())
}
