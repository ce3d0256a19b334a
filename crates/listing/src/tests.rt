// What no clause says: that listings are sent at all, and how they read.
use super::*;
use crate::image_writer::device;
use board::{Board, CallKind, MemBoard};
use std::alloc::Global;
use std::test::Fail;
use store_policy::View;
use vault::Vault;

// What the sending of a listing answers, or None if the vault is closed or of another device.
fn list(vault: &mut Vault, board: &mut MemBoard) -> Option<Result<(), ListingFault>> {
    if !vault.is_open() {
        return None;
    }
    let View {
        directory: _,
        indexes: _,
        blocks,
    } = vault.view();
    if blocks != board.blocks() {
        return None;
    }
    Some(send_listing(vault, board, &mut [0; 8213]))
}

#[test]
fn a_formatted_device_has_one_empty_store(rt: HostRuntime) -> Result<(), Fail> {
    let mut board = MemBoard::new(rt.alloc(), 16)?;
    assert!(rt; Vault::format(&mut board).is_ok());
    let Ok(mut vault) = Vault::open(rt.alloc(), &mut board) else {
        panic!(rt; "not opened");
    };
    assert_eq!(rt; list(&mut vault, &mut board), Some(Ok(())));
    let text = "now 000000000000 reports 0\n\
        store 1 circular size 64 channel 1 storage on open on behind 0 range none told no packets 0 pages 0\n\
        pattern every\n";
    assert!(rt; board.sent() == text.as_bytes());
    assert_eq!(rt; board.count(CallKind::Send), 3);
    Ok(())
}

const LISTING: &str = "now 000000000009 reports 7\n\
    forward kind 7 5 25\n\
    store 1 circular size 64 channel 1 storage on open off behind 1 range 0 2 told yes packets 2 pages 2\n\
    pattern app 100\n\
    pattern service 101 3\n\
    pattern kind 102 5 2\n\
    packet 000000000004 0864c00000011112\n\
    packet 000000000009 0864c00000011112\n\
    store 300 bounded size 20 channel 2 storage off open on behind 0 range none told no packets 0 pages 0\n\
    pattern every\n";

#[test]
fn stores_are_listed_with_their_patterns_and_packets(rt: HostRuntime) -> Result<(), Fail> {
    let mut board = device(rt.alloc())?;
    let Ok(mut vault) = Vault::open(rt.alloc(), &mut board) else {
        panic!(rt; "not opened");
    };
    let reads = board.count(CallKind::Read);
    assert_eq!(rt; list(&mut vault, &mut board), Some(Ok(())));
    assert!(rt; board.sent() == LISTING.as_bytes());
    assert_eq!(rt; board.count(CallKind::Send), 10);
    assert_eq!(rt; board.count(CallKind::Read), reads.saturating_add(2));
    Ok(())
}

#[test]
fn a_failed_link_leaves_the_vault_open(rt: HostRuntime) -> Result<(), Fail> {
    let mut board = device(rt.alloc())?;
    board.plan(CallKind::Send, 3)?;
    let Ok(mut vault) = Vault::open(rt.alloc(), &mut board) else {
        panic!(rt; "not opened");
    };
    let answer = list(&mut vault, &mut board);
    assert_eq!(rt; answer, Some(Err(ListingFault::Link)));
    assert!(rt; board.sent() == "now 000000000009 reports 7\nforward kind 7 5 25\n".as_bytes());
    assert!(rt; vault.is_open());
    Ok(())
}

#[test]
fn a_failed_read_closes_the_vault(rt: HostRuntime) -> Result<(), Fail> {
    let mut board = device(rt.alloc())?;
    let Ok(mut vault) = Vault::open(rt.alloc(), &mut board) else {
        panic!(rt; "not opened");
    };
    let second = board.count(CallKind::Read).saturating_add(2);
    board.plan(CallKind::Read, second)?;
    let answer = list(&mut vault, &mut board);
    assert_eq!(rt; answer, Some(Err(ListingFault::Flash)));
    assert_eq!(rt; board.count(CallKind::Send), 7);
    assert!(rt; !vault.is_open());
    Ok(())
}
