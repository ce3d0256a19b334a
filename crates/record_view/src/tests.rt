// Records of each page cost, and one octet by octet.

use super::*;
use space_packet::PacketView;
use std::alloc::{AllocError, Global};
use std::test::Fail;

// A telemetry packet of this many octets, 7 to 4,096.
fn packet(alloc: Global, count: u16) -> Result<Vec<u8>, AllocError> {
    let [high, low] = count.wrapping_sub(7).to_be_bytes();
    let head = [8, 100, 0xc0, 0, high, low];
    let mut octets = Vec::new(alloc);
    octets.extend_from_slice(&head)?;
    octets.resize(usize::from(count), 0xbb)?;
    Ok(octets)
}

// Writes a record with the stamp 5 at a page, at most 200, of a block, and returns its page cost.
fn put(block: &mut [u8], page: usize, number: u32, octets: &[u8]) -> Option<u32> {
    if page > 200 || block.len() != 65_536 || octets.len() > 4096 {
        return None;
    }
    let view = PacketView::read(octets).ok()?;
    Some(write_record(number, 5, view, &mut block[256 * page..]))
}

#[test]
fn records_of_each_cost_are_read(rt: HostRuntime) -> Result<(), Fail> {
    let mut block = vec![in rt.alloc(); 0xaa_u8; 65_536]?;
    let mut page = 0;
    let mut number = u32::MAX;
    for pages in 1..18_u16 {
        let octets = packet(rt.alloc(), (256 * pages - 16).min(4096))?;
        assert_eq!(rt;
            put(&mut block, page, number, &octets),
            Some(u32::from(pages))
        );
        page = page.saturating_add(usize::from(pages));
        number = number.wrapping_add(1);
    }
    assert!(rt; block.len() == 65_536);
    number = u32::MAX;
    for read in Records::new(&block, number, 20) {
        assert_eq!(rt; read.number, number);
        assert_eq!(rt; read.stamp, 5);
        assert!(rt; read.packet.bytes().len() >= 240);
        number = number.wrapping_add(1);
    }
    assert_eq!(rt; number, 16);
    let mut records = Records::new(&block, u32::MAX, 20);
    for _ in 0..17 {
        assert!(rt; records.next_record().is_some());
    }
    assert!(rt; records.next_record().is_none());
    assert_eq!(rt; records.left(), 3);
    assert_eq!(rt; records.page(), 153);
    assert!(rt; read_record(&block, 0, 1).is_some());
    assert!(rt; read_record(&block, 1, 1).is_none());
    Ok(())
}

#[test]
fn a_record_is_written_octet_by_octet(rt: HostRuntime) -> Result<(), Fail> {
    let octets = packet(rt.alloc(), 7)?;
    assert!(rt; octets.len() == 7);
    let Ok(view) = PacketView::read(&octets) else {
        panic!(rt; "no packet");
    };
    let mut out = vec![in rt.alloc(); 0xaa_u8; 4_352]?;
    let taken = write_record(0x0708_090a, 0x0102_0304_0506, view, &mut out);
    assert_eq!(rt; taken, 1);
    assert!(rt; out.len() == 4_352);
    let written = [
        1_u8, 2, 3, 4, 5, 6, 7, 8, 9, 10, 0, 7, 0, 0, 0, 0, 8, 100, 0xc0, 0, 0, 0, 0xbb, 0,
    ];
    assert!(rt; out.starts_with(&written));
    assert!(rt; out[255] == 0 && out[256] == 0xaa);
    let link = Link { block: 7, first: 0 };
    assert!(rt; link == Link { block: 7, first: 0 } && link.block == 7 && link.first == 0);
    Ok(())
}
