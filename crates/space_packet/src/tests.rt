// Worked packets, each fault at its edges, and the texts of the faults.

use super::*;
use std::alloc::{AllocError, Global};
use std::fmt::InlineText;
use std::test::Fail;

/// A telemetry packet of APID 100 with a secondary header, 20 octets long.
const PACKET: [u8; 20] = [
    0x08, 0x64, 0xc0, 0, 0, 0x0d, 0x20, 3, 0x19, 0, 0, 0, 0, 0, 0, 0, 0, 0, 0x10, 0xaa,
];

// Octets of this number, with this version and this packet data length field.
fn octets(alloc: Global, count: usize, version: u8, field: u16) -> Result<Vec<u8>, AllocError> {
    let [high, low] = field.to_be_bytes();
    let front = [version % 8 * 32, 1, 0xc0, 0, high, low];
    let mut octets = Vec::new(alloc);
    octets.extend_from_slice(&front)?;
    octets.resize(count, 0)?;
    Ok(octets)
}

#[test]
fn the_fields_are_those_of_the_header(rt: HostRuntime) {
    let Ok(packet) = PacketView::read(&PACKET) else {
        panic!(rt; "no packet");
    };
    assert!(rt; !packet.is_command());
    assert!(rt; packet.has_secondary());
    assert!(rt; !packet.is_idle());
    assert_eq!(rt; packet.apid(), 100);
    assert_eq!(rt; packet.sequence_flags(), 3);
    assert_eq!(rt; packet.sequence_count(), 0);
    assert_eq!(rt; packet.bytes().len(), 20);
    assert_eq!(rt; packet.user().len(), 14);
    let Ok(idle) = PacketView::read(&[0x17, 0xff, 0x80, 7, 0, 0, 0]) else {
        panic!(rt; "no packet");
    };
    assert!(rt; idle.is_command() && !idle.has_secondary() && idle.is_idle());
    assert_eq!(rt; idle.sequence_flags(), 2);
    assert_eq!(rt; idle.sequence_count(), 7);
}

#[test]
fn a_header_is_written_in_front(rt: HostRuntime) {
    let mut octets = [0xaa_u8; 7];
    let head = Primary {
        command: false,
        secondary: true,
        apid: 100,
        flags: 3,
        count: 258,
        length: 13,
    };
    write_primary(head, &mut octets);
    assert!(rt; octets == [0x08, 0x64, 0xc1, 0x02, 0, 0x0d, 0xaa]);
    let head = Primary {
        command: true,
        secondary: false,
        apid: 2047,
        flags: 1,
        count: 16383,
        length: 65535,
    };
    write_primary(head, &mut octets);
    assert!(rt; octets == [0x17, 0xff, 0x7f, 0xff, 0xff, 0xff, 0xaa]);
}

#[test]
fn the_first_fault_is_named(rt: HostRuntime) -> Result<(), Fail> {
    let short = |have, need| Some(PacketFault::Short { have, need });
    let long = |have, need| Some(PacketFault::Long { have, need });
    let version = |found| Some(PacketFault::Version { found });
    let too_large = |need| Some(PacketFault::TooLarge { need });
    let rows = [
        (0, 0, 0, short(0, 6)),
        (5, 7, 0, short(5, 6)),
        (6, 0, 0, short(6, 7)),
        (6, 7, 65535, short(6, 65542)),
        (7, 0, 0, None),
        (7, 1, 0, version(1)),
        (7, 7, 0, version(7)),
        (8, 3, 0, version(3)),
        (8, 0, 0, long(8, 7)),
        (4096, 0, 4089, None),
        (4096, 0, 4090, short(4096, 4097)),
        (4097, 0, 4089, long(4097, 4096)),
        (4097, 0, 4090, too_large(4097)),
        (4098, 0, 4090, too_large(4097)),
    ];
    for (count, version, field, fault) in rows {
        let octets = octets(rt.alloc(), count, version, field)?;
        assert!(rt; octets.len() <= 4098);
        let found = PacketView::read(&octets).err();
        assert_eq!(rt;
            found,
            fault,
            "{count} octets, version {version}, field {field}"
        );
    }
    Ok(())
}

#[test]
fn faults_have_texts(rt: HostRuntime) {
    let rows = [
        (
            PacketFault::Short { have: 19, need: 20 },
            "packet short: have 19 need 20",
        ),
        (PacketFault::Version { found: 7 }, "packet version 7"),
        (
            PacketFault::TooLarge { need: 4097 },
            "packet too large: need 4097",
        ),
        (
            PacketFault::Long { have: 21, need: 20 },
            "packet long: have 21 need 20",
        ),
    ];
    for (fault, text) in rows {
        let said: InlineText<64> = InlineText::of(fault);
        assert_eq!(rt; said.as_str(), text);
    }
}

#[test]
fn charges_are_pages_with_a_record_head(rt: HostRuntime) {
    let rows = [
        (7, 1),
        (20, 1),
        (240, 1),
        (241, 2),
        (300, 2),
        (4080, 16),
        (4081, 17),
        (4096, 17),
    ];
    for (length, pages) in rows {
        assert!(rt; length <= 4096);
        assert_eq!(rt; charge(length), pages, "{length} octets");
    }
}
