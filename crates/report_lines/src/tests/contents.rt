// The content reports on three stores, worked out by hand.
ghost use Rattle.std.specs.Prelude.{◌≡◌, IfOk};
ghost use Rattle.report_lines.specs.Times.{HaveTimes};

use crate::write_content;
use control_defs::Pattern::{App, Every};
use control_defs::StoreKind::{Bounded, Circular};
use pus_header::read_tc;
use pus_report::Head;
use pus_request::read_request;
use space_packet::PacketView;
use std::alloc::{AllocError, Global};
use std::test::Fail;
use store_directory::{Change, Directory, Row};
use store_policy::View;
use time_index::{Entry, Index};

/// Two packets, of which one is retrieved.
const FIRST: Row = Row {
    identifier: 1,
    kind: Circular,
    size: 64,
    channel: 1,
    storage: true,
    open_on: true,
    told: false,
    first: 0,
    count: 2,
    behind: 1,
    range: None,
};

/// No packet, and nothing is on.
const SECOND: Row = Row {
    identifier: 2,
    kind: Bounded,
    size: 10,
    channel: 2,
    storage: false,
    open_on: false,
    count: 0,
    behind: 0,
    ..FIRST
};

/// Three packets, and a range retrieval.
const THIRD: Row = Row {
    identifier: 259,
    size: 300,
    channel: 7,
    open_on: false,
    count: 3,
    behind: 0,
    range: Some((0, 2)),
    ..FIRST
};

// The three stores. Every packet is forwarded, and the first store takes those of APID 100.
fn directory_of(alloc: Global) -> Option<Directory> {
    let mut directory = Directory::new(alloc).ok()?;
    for row in [FIRST, SECOND, THIRD] {
        directory.apply(alloc, &Change::Put(row)).ok()?;
    }
    let forward = Change::Forward {
        add: true,
        pattern: Every,
    };
    directory.apply(alloc, &forward).ok()?;
    let types = Change::Types {
        store: 1,
        add: true,
        pattern: App(100),
    };
    directory.apply(alloc, &types).ok()?;
    Some(directory)
}

// An entry with this time and this length.
fn entry(stamp: u64, length: u16) -> Entry
    ensures { result ≡ record { stamp = stamp; block = 8; page = 0; length = length } }
{
    Entry {
        stamp,
        block: 8,
        page: 0,
        length,
    }
}

// Packets of one page and of two.
fn two_packets(alloc: Global) -> Result<Index, AllocError>
    ensures { IfOk result (λ index. HaveTimes index.entries) }
{
    let mut index = Index::new(alloc, 64, 0)?;
    index.push(entry(10, 7));
    index.push(entry(20, 300));
    Ok(index)
}

// No packet.
fn no_packets(alloc: Global) -> Result<Index, AllocError>
    ensures { IfOk result (λ index. HaveTimes index.entries) }
{
    Index::new(alloc, 10, 0)
}

// Three packets of a page.
fn three_packets(alloc: Global) -> Result<Index, AllocError>
    ensures { IfOk result (λ index. HaveTimes index.entries) }
{
    let mut index = Index::new(alloc, 300, 0)?;
    index.push(entry(5, 7));
    index.push(entry(5, 7));
    index.push(entry(0x0102_0304_0506, 7));
    Ok(index)
}

// Whether the content report on a request has these octets; at None, whether there is none.
fn has_report(alloc: Global, request: &[u8], want: Option<&[u8]>) -> Result<bool, Fail> {
    let indexes = [
        two_packets(alloc)?,
        no_packets(alloc)?,
        three_packets(alloc)?,
    ];
    let Some(directory) = directory_of(alloc) else {
        return Ok(false);
    };
    if directory.len() != 3 || request.len() > 4096 {
        return Ok(false);
    }
    let view = View {
        directory: &directory,
        indexes: &indexes,
        blocks: 512,
    };
    let Ok(packet) = PacketView::read(request) else {
        return Ok(false);
    };
    let Ok(command) = read_tc(packet) else {
        return Ok(false);
    };
    let Ok(items) = read_request(&command) else {
        return Ok(false);
    };
    let head = Head {
        count: 5,
        moment: 7,
    };
    let mut out = [0xaa; 1024];
    match write_content(&view, &items, head, &mut out) {
        Some(length) => Ok(want == Some(&out[..length as usize])),
        None => Ok(want.is_none()),
    }
}

#[test]
fn what_is_forwarded(rt: HostRuntime) -> Result<(), Fail> {
    let report = [
        0x08, 0x0a, 0xc0, 5, 0, 0x12, 0x20, 14, 4, 0, 0, 0, 0, 0, 0, 0, 0, 0, 7, 1, 0, 0, 0, 0, 0,
    ];
    let request = [0x18, 0x0a, 0xc0, 0, 0, 4, 0x20, 14, 3, 0, 0];
    assert!(rt; has_report(rt.alloc(), &request, Some(&report))?);
    Ok(())
}

#[test]
fn what_a_store_takes(rt: HostRuntime) -> Result<(), Fail> {
    let report = [
        0x08, 0x0a, 0xc0, 5, 0, 0x14, 0x20, 15, 6, 0, 0, 0, 0, 0, 0, 0, 0, 0, 7, 0, 1, 1, 1, 0,
        100, 0, 0,
    ];
    let request = [0x18, 0x0a, 0xc0, 0, 0, 6, 0x20, 15, 5, 0, 0, 0, 1];
    assert!(rt; has_report(rt.alloc(), &request, Some(&report))?);
    let unknown = [0x18, 0x0a, 0xc0, 0, 0, 6, 0x20, 15, 5, 0, 0, 0, 7];
    assert!(rt; has_report(rt.alloc(), &unknown, None)?);
    Ok(())
}

#[test]
fn a_summary_repeats_a_store_and_leaves_out_an_unknown_one(rt: HostRuntime) -> Result<(), Fail> {
    let report = [
        0x08, 0x0a, 0xc0, 5, 0, 0x5b, 0x20, 15, 13, 0, 0, 0, 0, 0, 0, 0, 0, 0, 7, 3, 0, 1, 0, 0, 0,
        2, 0, 0, 0, 3, 0, 0, 0, 0, 0, 10, 0, 0, 0, 0, 0, 20, 0, 0, 0, 1, 0, 1, 0, 0, 0, 2, 0, 0, 0,
        3, 0, 0, 0, 0, 0, 10, 0, 0, 0, 0, 0, 20, 0, 0, 0, 1, 1, 3, 0, 0, 0, 3, 0, 0, 0, 3, 0, 0, 0,
        0, 0, 5, 1, 2, 3, 4, 5, 6, 0, 0, 0, 3,
    ];
    let request = [
        0x18, 0x0a, 0xc0, 0, 0, 13, 0x20, 15, 12, 0, 0, 4, 0, 1, 0, 7, 0, 1, 1, 3,
    ];
    assert!(rt; has_report(rt.alloc(), &request, Some(&report))?);
    let unknown = [0x18, 0x0a, 0xc0, 0, 0, 7, 0x20, 15, 12, 0, 0, 1, 0, 7];
    assert!(rt; has_report(rt.alloc(), &unknown, None)?);
    Ok(())
}

#[test]
fn what_is_on_in_each_store(rt: HostRuntime) -> Result<(), Fail> {
    let report = [
        0x08, 0x0a, 0xc0, 5, 0, 0x1c, 0x20, 15, 19, 0, 0, 0, 0, 0, 0, 0, 0, 0, 7, 3, 0, 1, 1, 1, 0,
        0, 2, 0, 0, 0, 1, 3, 1, 0, 1,
    ];
    let request = [0x18, 0x0a, 0xc0, 0, 0, 4, 0x20, 15, 18, 0, 0];
    assert!(rt; has_report(rt.alloc(), &request, Some(&report))?);
    Ok(())
}

#[test]
fn how_each_store_is_made(rt: HostRuntime) -> Result<(), Fail> {
    let report = [
        0x08, 0x0a, 0xc0, 5, 0, 0x25, 0x20, 15, 23, 0, 0, 0, 0, 0, 0, 0, 0, 0, 7, 3, 0, 1, 0, 0, 0,
        0, 64, 1, 0, 2, 1, 0, 0, 0, 10, 2, 1, 3, 0, 0, 0, 1, 44, 7,
    ];
    let request = [0x18, 0x0a, 0xc0, 0, 0, 4, 0x20, 15, 22, 0, 0];
    assert!(rt; has_report(rt.alloc(), &request, Some(&report))?);
    Ok(())
}

#[test]
fn other_instructions_have_no_report(rt: HostRuntime) -> Result<(), Fail> {
    let enable = [0x18, 0x0a, 0xc0, 0, 0, 7, 0x20, 15, 1, 0, 0, 1, 0, 1];
    assert!(rt; has_report(rt.alloc(), &enable, None)?);
    Ok(())
}
