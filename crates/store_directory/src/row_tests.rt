// Rows by their octets, written out by hand.

use crate::row::Row;
use crate::row_text::{put_row, row_at};
use control_defs::StoreKind;

// A bounded store with open retrieval and a range, without its told flag.
pub(crate) const ROW: Row = Row {
    identifier: 0x0102,
    kind: StoreKind::Bounded,
    size: 64,
    channel: 7,
    storage: false,
    open_on: true,
    told: false,
    first: 0xffff_fffe,
    count: 9,
    behind: 3,
    range: Some((4, 5)),
};

pub(crate) const ROW_OCTETS: [u8; 29] = [
    1, 2, 1, 0, 0, 0, 64, 7, 10, 255, 255, 255, 254, 0, 0, 0, 9, 0, 0, 0, 3, 0, 0, 0, 4, 0, 0, 0, 5,
];

#[test]
fn a_row_has_29_octets(rt: HostRuntime) {
    let mut out = [9u8; 31];
    assert!(rt; put_row(&ROW, &mut out, 1) == 30);
    assert!(rt; out[0] == 9 && out[30] == 9);
    assert!(rt; &out[1..30] == ROW_OCTETS.as_slice());
    assert!(rt; row_at(&ROW_OCTETS) == Some(ROW));
    assert!(rt; row_at(&ROW_OCTETS[..28]).is_none());
}

#[test]
fn flags_are_apart(rt: HostRuntime) {
    for (flags, storage, open_on, told) in [
        (1, true, false, false),
        (2, false, true, false),
        (4, false, false, true),
        (7, true, true, true),
    ] {
        let mut octets = [0u8; 29];
        octets[8] = flags;
        match row_at(&octets) {
            Some(row) => {
                assert!(rt; row.storage == storage && row.open_on == open_on && row.told == told);
                assert!(rt; row.range.is_none());
            }
            None => assert!(rt; false),
        }
    }
}

#[test]
fn a_row_without_a_range_has_no_positions(rt: HostRuntime) {
    for (place, octet, spelled) in [
        (2, 0, true),
        (2, 2, false),
        (8, 8, true),
        (8, 2, false),
        (8, 16, false),
        (8, 26, false),
    ] {
        let mut octets = ROW_OCTETS;
        octets[place] = octet;
        assert!(rt; row_at(&octets).is_some() == spelled);
    }
    let mut octets = ROW_OCTETS;
    octets[8] = 2;
    octets[24] = 0;
    assert!(rt; row_at(&octets).is_none());
    octets[28] = 0;
    assert!(rt; row_at(&octets).is_some());
}

#[test]
fn a_row_is_lawful_within_its_ranges(rt: HostRuntime) {
    assert!(rt; ROW.is_lawful());
    let most = Row {
        size: 100_000,
        channel: 1,
        count: 100_000,
        behind: 100_000,
        range: None,
        ..ROW
    };
    assert!(rt; most.is_lawful());
    for row in [
        Row {
            size: 0,
            count: 0,
            behind: 0,
            range: None,
            ..ROW
        },
        Row {
            size: 100_001,
            ..ROW
        },
        Row { channel: 0, ..ROW },
        Row { channel: 8, ..ROW },
        Row { count: 65, ..ROW },
        Row { behind: 10, ..ROW },
        Row {
            range: Some((5, 5)),
            ..ROW
        },
        Row {
            range: Some((4, 10)),
            ..ROW
        },
    ] {
        assert!(rt; !row.is_lawful());
    }
}
