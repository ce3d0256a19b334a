// What no clause says: that commands are carried out at all, the octets of their lines, and what a call
// that fails leaves.
ghost use Rattle.std.specs.Prelude.{◌≡◌, ◌<◌, ◌^◌, length, true, IfSome};
ghost use Rattle.handler.specs.Carrying.{IsBoardOf};

use super::*;
use board::{Board, CallKind, MemBoard};
use space_packet::PacketView;
use std::alloc::Global;
use std::test::Fail;
use store_policy::View;
use vault::Vault;

// A request [15,16] of store 1, which asks for two reports.
const SUSPEND: [u8; 14] = [0x18, 0x0a, 0xc0, 0, 0, 7, 0x29, 0x0f, 0x10, 0, 0, 1, 0, 1];

// A request [15,18], which asks for the status report alone.
const STATUS: [u8; 11] = [0x18, 0x0a, 0xc0, 1, 0, 4, 0x20, 0x0f, 0x12, 0, 0];

// The same for APID 11, which is refused.
const ELSEWHERE: [u8; 11] = [0x18, 0x0b, 0xc0, 2, 0, 4, 0x20, 0x0f, 0x12, 0, 0];

// A telemetry packet of APID 100.
const PACKET: [u8; 7] = [0x08, 0x64, 0xc0, 0, 0, 0, 7];

// A request [14,1] of every packet, which asks for no report.
const FORWARD: [u8; 17] = [
    0x18, 0x0a, 0xc0, 0, 0, 10, 0x20, 0x0e, 1, 0, 0, 1, 0, 0, 0, 0, 0,
];

// A handler of a device that is formatted first; None if that failed.
fn formatted<B: Board>(alloc: Global, board: &mut B) -> Option<Handler>
    ensures open { IfSome result (λ handler. handler.is_open ≡ true) }
    ensures board { IfSome result (λ handler. IsBoardOf B.means handler.vault board.new) }
{
    let Ok(()) = Vault::format(board) else {
        return None;
    };
    let Ok(vault) = Vault::open(alloc, board) else {
        return None;
    };
    match Handler::new(alloc, vault) {
        Ok(handler) => Some(handler),
        Err(_) => None,
    }
}

// What a request sent; None if it was not carried out.
fn request<B: Board>(
    handler: &mut Handler,
    alloc: Global,
    board: &mut B,
    octets: &[u8],
) -> Option<Sent>
    requires is_open { handler.old.is_open ≡ true }
    requires board { IsBoardOf B.means handler.old.vault board.old }
    requires short { length octets.now < 2 ^ 32 }
    ensures open { IfSome result (λ _. handler.new.is_open ≡ true) }
    ensures board { IfSome result (λ _. IsBoardOf B.means handler.new.vault board.new) }
{
    let Ok(packet) = PacketView::read(octets) else {
        return None;
    };
    match handler.request(alloc, board, 4, packet) {
        Ok(sent) => Some(sent),
        Err(_) => None,
    }
}

// What an arriving packet sent; None if it was not taken in.
fn arrival<B: Board>(handler: &mut Handler, board: &mut B, octets: &[u8]) -> Option<Sent>
    requires is_open { handler.old.is_open ≡ true }
    requires board { IsBoardOf B.means handler.old.vault board.old }
    requires short { length octets.now < 2 ^ 32 }
    ensures open { IfSome result (λ _. handler.new.is_open ≡ true) }
    ensures board { IfSome result (λ _. IsBoardOf B.means handler.new.vault board.new) }
{
    let Ok(packet) = PacketView::read(octets) else {
        return None;
    };
    match handler.arrival(board, 4, packet) {
        Ok(sent) => Some(sent),
        Err(_) => None,
    }
}

// The number of reports of the table that a device holds; None if it was not opened.
fn reports_of(alloc: Global, board: &mut MemBoard) -> Option<u16> {
    match Vault::open(alloc, board) {
        Ok(vault) => {
            let View {
                directory,
                indexes: _,
                blocks: _,
            } = vault.view();
            Some(directory.reports())
        }
        Err(_) => None,
    }
}

#[test]
fn each_request_is_answered(rt: HostRuntime) -> Result<(), Fail> {
    let alloc = rt.alloc();
    let mut board = MemBoard::new(alloc, 16)?;
    let Some(mut handler) = formatted(alloc, &mut board) else {
        panic!(rt; "no table");
    };
    let Some(sent) = request(&mut handler, alloc, &mut board, &FORWARD) else {
        panic!(rt; "not carried out");
    };
    assert!(rt; sent == Sent::default());
    let Some(sent) = request(&mut handler, alloc, &mut board, &SUSPEND) else {
        panic!(rt; "not carried out");
    };
    let replies = Sent {
        replies: 2,
        octets: 98,
        ..Sent::default()
    };
    assert!(rt; sent == replies);
    let Some(sent) = request(&mut handler, alloc, &mut board, &STATUS) else {
        panic!(rt; "not carried out");
    };
    let status = Sent {
        replies: 1,
        octets: 53,
        ..Sent::default()
    };
    assert!(rt; sent == status);
    let first = b"0 080ac000001020010100000000000000000004180ac000\n".as_slice();
    let second = b"0 080ac001001020010700000000000000000004180ac000\n".as_slice();
    let third = b"0 080ac0020012200f1300000000000000000004010001010000\n".as_slice();
    let lines = board.sent();
    let lines = lines
        .strip_prefix(first)
        .and_then(|rest| rest.strip_prefix(second));
    assert!(rt; lines == Some(third));
    assert_eq!(rt; reports_of(alloc, &mut board), Some(3));
    Ok(())
}

#[test]
fn a_refused_request_counts_its_report(rt: HostRuntime) -> Result<(), Fail> {
    let alloc = rt.alloc();
    let mut board = MemBoard::new(alloc, 16)?;
    let Some(mut handler) = formatted(alloc, &mut board) else {
        panic!(rt; "no table");
    };
    let Some(sent) = request(&mut handler, alloc, &mut board, &ELSEWHERE) else {
        panic!(rt; "not carried out");
    };
    let refusal = Sent {
        replies: 1,
        octets: 55,
        ..Sent::default()
    };
    assert!(rt; sent == refusal);
    let line = b"0 080ac000001320010200000000000000000004180bc00201000b\n";
    assert!(rt; board.sent() == line.as_slice());
    assert_eq!(rt; reports_of(alloc, &mut board), Some(1));
    Ok(())
}

#[test]
fn a_packet_is_forwarded_and_retrieved(rt: HostRuntime) -> Result<(), Fail> {
    let alloc = rt.alloc();
    let mut board = MemBoard::new(alloc, 16)?;
    let Some(mut handler) = formatted(alloc, &mut board) else {
        panic!(rt; "no table");
    };
    let Some(sent) = request(&mut handler, alloc, &mut board, &FORWARD) else {
        panic!(rt; "not carried out");
    };
    assert!(rt; sent == Sent::default());
    let Some(sent) = arrival(&mut handler, &mut board, &PACKET) else {
        panic!(rt; "not taken in");
    };
    let forwarded = Sent {
        forwarded: 1,
        octets: 17,
        ..Sent::default()
    };
    assert!(rt; sent == forwarded);
    let retrieved = Sent {
        retrieved: 1,
        octets: 17,
        ..Sent::default()
    };
    assert!(rt; handler.grant(&mut board, 5) == Ok(retrieved));
    let lines = b"0 0864c000000007\n1 0864c000000007\n";
    assert!(rt; board.sent() == lines.as_slice());
    Ok(())
}

#[test]
fn nothing_is_sent_of_no_packet(rt: HostRuntime) -> Result<(), Fail> {
    let alloc = rt.alloc();
    let mut board = MemBoard::new(alloc, 16)?;
    let Some(mut handler) = formatted(alloc, &mut board) else {
        panic!(rt; "no table");
    };
    let none = Ok(Sent::default());
    assert!(rt; handler.idle(&mut board, 3) == none);
    assert!(rt; handler.is_open());
    Ok(())
}

#[test]
fn a_grant_without_packets_calls_nothing(rt: HostRuntime) -> Result<(), Fail> {
    let alloc = rt.alloc();
    let mut board = MemBoard::new(alloc, 16)?;
    let Some(mut handler) = formatted(alloc, &mut board) else {
        panic!(rt; "no table");
    };
    let programs = board.count(CallKind::Program);
    assert!(rt; handler.grant(&mut board, 3) == Ok(Sent::default()));
    assert_eq!(rt; board.count(CallKind::Program), programs);
    assert!(rt; board.sent().is_empty());
    assert!(rt; handler.is_open());
    Ok(())
}

#[test]
fn a_link_that_fails_leaves_the_request_durable(rt: HostRuntime) -> Result<(), Fail> {
    let alloc = rt.alloc();
    let mut board = MemBoard::new(alloc, 16)?;
    let Some(mut handler) = formatted(alloc, &mut board) else {
        panic!(rt; "no table");
    };
    let Ok(packet) = PacketView::read(&SUSPEND) else {
        panic!(rt; "no packet");
    };
    board.plan(CallKind::Send, 2)?;
    assert!(rt; handler.request(alloc, &mut board, 4, packet) == Err(HandlerFault::Link));
    assert!(rt; !handler.is_open());
    assert_eq!(rt; reports_of(alloc, &mut board), Some(2));
    Ok(())
}

#[test]
fn a_flash_that_fails_sends_nothing(rt: HostRuntime) -> Result<(), Fail> {
    let alloc = rt.alloc();
    let mut board = MemBoard::new(alloc, 16)?;
    let Some(mut handler) = formatted(alloc, &mut board) else {
        panic!(rt; "no table");
    };
    let Ok(packet) = PacketView::read(&SUSPEND) else {
        panic!(rt; "no packet");
    };
    let next = board.count(CallKind::Program).saturating_add(1);
    board.plan(CallKind::Program, next)?;
    assert!(rt; handler.request(alloc, &mut board, 4, packet) == Err(HandlerFault::Flash));
    assert!(rt; !handler.is_open());
    assert!(rt; board.sent().is_empty());
    Ok(())
}
