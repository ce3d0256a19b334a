// What no clause says: that packets are fetched at all, and when a fetch fails.
use super::*;
use crate::image_writer::{PACKET, device};
use board::{Board, CallKind, MemBoard};
use std::alloc::Global;
use std::test::Fail;
use store_policy::View;

// The time and the octets of the packet at a position, if there is one, and the fault of the fetch.
fn fetched(
    vault: &mut Vault,
    board: &mut MemBoard,
    at: u32,
    position: u32,
) -> Option<Result<(u64, bool), VaultFault>> {
    if !vault.is_open() {
        return None;
    }
    let View {
        directory: _,
        indexes,
        blocks,
    } = vault.view();
    let within = match indexes.get(at as usize) {
        Some(index) => position < index.len(),
        None => false,
    };
    if !within || blocks != board.blocks() {
        return None;
    }
    Some(match vault.fetch(board, at, position) {
        Ok(found) => Ok((found.stamp, found.packet.bytes() == PACKET.as_slice())),
        Err(fault) => Err(fault),
    })
}

#[test]
fn each_packet_is_fetched(rt: HostRuntime) -> Result<(), Fail> {
    let mut board = device(rt.alloc(), [0; 3], [true, false], &[])?;
    let Ok(mut vault) = Vault::open(rt.alloc(), &mut board) else {
        panic!(rt; "not opened");
    };
    let reads = board.count(CallKind::Read);
    assert_eq!(rt; fetched(&mut vault, &mut board, 0, 1), Some(Ok((9, true))));
    assert_eq!(rt; fetched(&mut vault, &mut board, 0, 0), Some(Ok((4, true))));
    assert_eq!(rt; board.count(CallKind::Read), reads.saturating_add(2));
    assert!(rt; vault.is_open());
    Ok(())
}

#[test]
fn a_failed_fetch_closes_the_vault(rt: HostRuntime) -> Result<(), Fail> {
    let mut board = device(rt.alloc(), [0; 3], [true, false], &[])?;
    let Ok(mut vault) = Vault::open(rt.alloc(), &mut board) else {
        panic!(rt; "not opened");
    };
    let next = board.count(CallKind::Read).saturating_add(1);
    board.plan(CallKind::Read, next)?;
    assert_eq!(rt;
        fetched(&mut vault, &mut board, 0, 0),
        Some(Err(VaultFault::Flash))
    );
    assert!(rt; !vault.is_open());
    Ok(())
}

#[test]
fn another_record_is_a_mismatch(rt: HostRuntime) -> Result<(), Fail> {
    let mut board = device(rt.alloc(), [0; 3], [true, false], &[])?;
    let Ok(mut vault) = Vault::open(rt.alloc(), &mut board) else {
        panic!(rt; "not opened");
    };
    let mut other = MemBoard::new(rt.alloc(), 16)?;
    let told = VaultFault::Mismatch {
        block: 7,
        page: 2,
        kept: 7,
        found: 4_294_967_295,
    };
    assert_eq!(rt; fetched(&mut vault, &mut other, 0, 1), Some(Err(told)));
    assert!(rt; !vault.is_open());
    Ok(())
}
