// Worked packets and their headers.

use super::*;
use space_packet::PacketView;

/// A report [3,25] of APID 100, 20 octets long.
const REPORT: [u8; 20] = [
    0x08, 0x64, 0xc0, 0, 0, 0x0d, 0x20, 3, 0x19, 0, 0, 0, 0, 0, 0, 0, 0, 0, 0x10, 0xaa,
];

/// A request [15,18] of APID 10, with no data.
const REQUEST: [u8; 11] = [0x18, 0x0a, 0xc0, 0, 0, 4, 0x29, 0x0f, 0x12, 0, 5];

#[test]
fn reports_have_a_kind(rt: HostRuntime) {
    let mut commanded = REPORT;
    commanded[0] = 0x18;
    let mut flagless = REPORT;
    flagless[0] = 0;
    let mut of_another_version = REPORT;
    of_another_version[6] = 0x10;
    let shortest = [8, 10, 192, 0, 0, 12, 47, 1, 2, 0, 0, 0, 0, 0, 0, 0, 0, 0, 7];
    let too_short = [8, 10, 192, 0, 0, 11, 32, 1, 2, 0, 0, 0, 0, 0, 0, 0, 0, 0];
    let rows = [
        (REPORT.as_slice(), 100, Some((3, 25))),
        (shortest.as_slice(), 10, Some((1, 2))),
        (too_short.as_slice(), 10, None),
        (commanded.as_slice(), 100, None),
        (flagless.as_slice(), 100, None),
        (of_another_version.as_slice(), 100, None),
        (REQUEST.as_slice(), 10, None),
    ];
    for (octets, apid, kind) in rows {
        assert!(rt; octets.len() <= 20);
        let Ok(packet) = PacketView::read(octets) else {
            panic!(rt; "no packet");
        };
        let key = key_of(&packet);
        assert_eq!(rt; key.apid, apid);
        assert!(rt; key.kind == kind);
    }
}

#[test]
fn telecommands_are_read(rt: HostRuntime) {
    let Ok(packet) = PacketView::read(&REQUEST) else {
        panic!(rt; "no packet");
    };
    let Ok(command) = read_tc(packet) else {
        panic!(rt; "no telecommand");
    };
    assert_eq!(rt; command.acks(), 9);
    assert_eq!(rt; command.service(), 15);
    assert_eq!(rt; command.subtype(), 18);
    assert_eq!(rt; command.source(), 5);
    assert!(rt; command.request_id() == [0x18, 0x0a, 0xc0, 0]);
    assert!(rt; command.body().is_empty());
}

#[test]
fn the_first_fault_is_named(rt: HostRuntime) {
    let flagless = [0x10, 0x0a, 0xc0, 0, 0, 4, 0x19, 0x0f, 0x12, 0, 0];
    let too_short = [0x18, 0x0a, 0xc0, 0, 0, 3, 0x19, 0x0f, 0x12, 0];
    let of_version_1 = [0x18, 0x0a, 0xc0, 0, 0, 4, 0x19, 0x0f, 0x12, 0, 0];
    let rows = [
        (REPORT.as_slice(), TcFault::NotCommand),
        (flagless.as_slice(), TcFault::NoHeader),
        (too_short.as_slice(), TcFault::NoHeader),
        (of_version_1.as_slice(), TcFault::WrongVersion(1)),
    ];
    for (octets, fault) in rows {
        assert!(rt; octets.len() <= 20);
        let Ok(packet) = PacketView::read(octets) else {
            panic!(rt; "no packet");
        };
        assert!(rt; read_tc(packet).err() == Some(fault));
    }
}

#[test]
fn the_head_of_a_report_is_written_in_front(rt: HostRuntime) {
    let mut octets = [0xaa_u8; 20];
    write_tm_head(258, 1, 2, 0x0102_0304_0506, 6, &mut octets);
    let head = [
        0x08, 0x0a, 0xc1, 2, 0, 0x12, 0x20, 1, 2, 0, 0, 0, 0, 1, 2, 3, 4, 5, 6, 0xaa,
    ];
    assert!(rt; octets == head);
}
