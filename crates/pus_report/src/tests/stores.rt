// The reports of packet stores.

use super::{LAST, has_front, has_rows, head_of};
use crate::{ConfigRow, StatusRow, SummaryRow, write_configuration, write_status, write_summary};
use control_defs::StoreKind;

/// The headers of a report of no store, with its message subtype.
const fn none_of(subtype: u8) -> [u8; 20] {
    [
        0x08, 0x0a, 0xc0, 0, 0, 0x0d, 0x20, 15, subtype, 0, 0, 0, 0, 0, 0, 0, 0, 0, 0, 0,
    ]
}

#[test]
fn a_summary_has_numbers_of_two_four_and_six_octets(rt: HostRuntime) {
    let row = SummaryRow {
        store: 1,
        packets: 3,
        pages: 5,
        oldest: 0x0102_0304_0506,
        newest: 0x0708_090a_0b0c,
        ahead: 2,
    };
    let mut out = [0xaa_u8; 1024];
    assert_eq!(rt; write_summary(head_of(6, 0x47), &[row], &mut out), 46);
    let report = [
        0x08, 0x0a, 0xc0, 6, 0, 0x27, 0x20, 15, 13, 0, 0, 0, 0, 0, 0, 0, 0, 0, 0x47, 1, 0, 1, 0, 0,
        0, 3, 0, 0, 0, 5, 1, 2, 3, 4, 5, 6, 7, 8, 9, 10, 11, 12, 0, 0, 0, 2,
    ];
    assert!(rt; has_front(&out, &report));
}

#[test]
fn summaries_of_no_store_and_of_thirty_two(rt: HostRuntime) {
    let mut out = [0xaa_u8; 1024];
    assert_eq!(rt; write_summary(head_of(0, 0), &[], &mut out), 20);
    assert!(rt; has_front(&out, &none_of(13)));
    let row = SummaryRow {
        store: 0xffff,
        packets: 0xfffe_fdfc,
        pages: 0xfbfa_f9f8,
        oldest: 0xffff_ffff_fffe,
        newest: 0xffff_ffff_ffff,
        ahead: 0xf7f6_f5f4,
    };
    assert_eq!(rt; write_summary(LAST, &[row; 32], &mut out), 852);
    let front = [
        0x08, 0x0a, 0xff, 0xff, 0x03, 0x4d, 0x20, 15, 13, 0, 0, 0, 0, 0xff, 0xff, 0xff, 0xff, 0xff,
        0xff, 32,
    ];
    let octets = [
        0xff, 0xff, 0xff, 0xfe, 0xfd, 0xfc, 0xfb, 0xfa, 0xf9, 0xf8, 0xff, 0xff, 0xff, 0xff, 0xff,
        0xfe, 0xff, 0xff, 0xff, 0xff, 0xff, 0xff, 0xf7, 0xf6, 0xf5, 0xf4,
    ];
    assert!(rt; has_rows(&out, &front, &octets, 32));
}

#[test]
fn a_status_has_an_octet_of_each_switch(rt: HostRuntime) {
    let rows = [
        StatusRow {
            store: 1,
            storage: true,
            open_on: true,
            range: false,
        },
        StatusRow {
            store: 0x0203,
            storage: false,
            open_on: true,
            range: true,
        },
    ];
    let mut out = [0xaa_u8; 1024];
    assert_eq!(rt; write_status(head_of(1, 0x20), &rows, &mut out), 30);
    let report = [
        0x08, 0x0a, 0xc0, 1, 0, 0x17, 0x20, 15, 19, 0, 0, 0, 0, 0, 0, 0, 0, 0, 0x20, 2, 0, 1, 1, 1,
        0, 2, 3, 0, 1, 1,
    ];
    assert!(rt; has_front(&out, &report));
}

#[test]
fn statuses_of_no_store_and_of_thirty_two(rt: HostRuntime) {
    let mut out = [0xaa_u8; 1024];
    assert_eq!(rt; write_status(head_of(0, 0), &[], &mut out), 20);
    assert!(rt; has_front(&out, &none_of(19)));
    let row = StatusRow {
        store: 0xffff,
        storage: true,
        open_on: false,
        range: true,
    };
    assert_eq!(rt; write_status(LAST, &[row; 32], &mut out), 180);
    let front = [
        0x08, 0x0a, 0xff, 0xff, 0, 0xad, 0x20, 15, 19, 0, 0, 0, 0, 0xff, 0xff, 0xff, 0xff, 0xff,
        0xff, 32,
    ];
    assert!(rt; has_rows(&out, &front, &[0xff, 0xff, 1, 0, 1], 32));
}

#[test]
fn a_configuration_has_a_kind_a_size_and_a_channel(rt: HostRuntime) {
    let rows = [
        ConfigRow {
            store: 1,
            kind: StoreKind::Circular,
            size: 256,
            channel: 2,
        },
        ConfigRow {
            store: 2,
            kind: StoreKind::Bounded,
            size: 65536,
            channel: 7,
        },
    ];
    let mut out = [0xaa_u8; 1024];
    assert_eq!(rt; write_configuration(head_of(7, 0x48), &rows, &mut out), 36);
    let report = [
        0x08, 0x0a, 0xc0, 7, 0, 0x1d, 0x20, 15, 23, 0, 0, 0, 0, 0, 0, 0, 0, 0, 0x48, 2, 0, 1, 0, 0,
        0, 1, 0, 2, 0, 2, 1, 0, 1, 0, 0, 7,
    ];
    assert!(rt; has_front(&out, &report));
}

#[test]
fn configurations_of_no_store_and_of_thirty_two(rt: HostRuntime) {
    let mut out = [0xaa_u8; 1024];
    assert_eq!(rt; write_configuration(head_of(0, 0), &[], &mut out), 20);
    assert!(rt; has_front(&out, &none_of(23)));
    let row = ConfigRow {
        store: 0xffff,
        kind: StoreKind::Bounded,
        size: 0xfffe_fdfc,
        channel: 255,
    };
    assert_eq!(rt; write_configuration(LAST, &[row; 32], &mut out), 276);
    let front = [
        0x08, 0x0a, 0xff, 0xff, 0x01, 0x0d, 0x20, 15, 23, 0, 0, 0, 0, 0xff, 0xff, 0xff, 0xff, 0xff,
        0xff, 32,
    ];
    assert!(rt;
        has_rows(
            &out,
            &front,
            &[0xff, 0xff, 1, 0xff, 0xfe, 0xfd, 0xfc, 255],
            32
        )
    );
}
