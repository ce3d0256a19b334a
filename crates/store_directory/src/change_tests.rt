// Changes by their octets, written out by hand.

use crate::change::Change;
use crate::change_text::{Spelled, read_change};
use crate::change_writing::write_change;
use crate::link_text::LinkList;
use crate::row_tests::{ROW, ROW_OCTETS};
use control_defs::Pattern;
use record_view::Link;

// The change that begins a text, if it is none of links.
fn other(text: &[u8]) -> Option<(Change<'_>, usize)> {
    let reading = read_change(text)?;
    match reading.change {
        Spelled::Other(change) => Some((change, reading.width)),
        Spelled::Links { .. } => None,
    }
}

#[test]
fn the_change_that_begins_a_text_is_read(rt: HostRuntime) {
    assert!(rt;
        matches!(
            other(&[1, 1, 0, 0, 0, 0, 16, 2, 3, 9]),
            Some((
                Change::Clock {
                    now: 0x0100_0000_0010,
                    reports: 0x0203
                },
                9
            ))
        )
    );
    assert!(rt; matches!(other(&[3, 1, 2, 9]), Some((Change::Gone(0x0102), 3))));
    assert!(rt;
        matches!(
            other(&[4, 0, 2, 0, 100, 3, 0, 9]),
            Some((
                Change::Forward {
                    add: false,
                    pattern: Pattern::Service(100, 3)
                },
                7
            ))
        )
    );
    assert!(rt;
        matches!(
            other(&[5, 1, 2, 1, 3, 7, 255, 3, 25]),
            Some((
                Change::Types {
                    store: 0x0102,
                    add: true,
                    pattern: Pattern::Kind(2047, 3, 25)
                },
                9
            ))
        )
    );
    assert!(rt;
        matches!(
            other(&[7, 1, 2, 3, 4, 5, 6, 7, 8, 9, 9]),
            Some((
                Change::Swap {
                    store: 0x0102,
                    block: 0x0304,
                    first: 0x0506_0708
                },
                9
            ))
        )
    );
}

#[test]
fn a_put_has_a_row_behind_its_tag(rt: HostRuntime) {
    let mut text = [2u8; 31];
    text[1..30].copy_from_slice(&ROW_OCTETS);
    match other(&text) {
        Some((Change::Put(row), width)) => assert!(rt; row == ROW && width == 30),
        _ => assert!(rt; false),
    }
    text[3] = 2;
    assert!(rt; other(&text).is_none());
}

#[test]
fn links_are_read_where_they_lie(rt: HostRuntime) {
    let text = [
        6, 1, 2, 0, 2, 1, 255, 0, 0, 0, 0, 0, 7, 255, 255, 255, 255, 9,
    ];
    match read_change(&text) {
        Some(reading) => {
            assert!(rt; reading.width == 17);
            match reading.change {
                Spelled::Links { store, links } => {
                    assert!(rt; store == 0x0102 && links.len() == 2);
                    assert!(rt;
                        links.get(0)
                            == Link {
                                block: 511,
                                first: 0
                            }
                    );
                    assert!(rt;
                        links.get(1)
                            == Link {
                                block: 7,
                                first: 0xffff_ffff
                            }
                    );
                }
                _ => assert!(rt; false),
            }
        }
        None => assert!(rt; false),
    }
    assert!(rt; read_change(&text[..16]).is_none());
}

#[test]
fn what_is_no_change_is_not_read(rt: HostRuntime) {
    let texts: [&[u8]; 13] = [
        &[],
        &[0, 0, 0],
        &[8, 0, 0, 0, 0, 0, 0, 0, 0],
        &[1, 0, 0, 0, 0, 0, 16, 0],
        &[3, 0],
        &[4, 2, 0, 0, 0, 0, 0],
        &[4, 1, 0, 0, 7, 0, 0],
        &[4, 1, 0, 0, 0, 0],
        &[5, 0, 1, 2, 0, 0, 0, 0, 0],
        &[5, 0, 1, 1, 1, 0, 7, 0, 1],
        &[6, 0, 1, 0],
        &[6, 0, 1, 0, 1, 0, 7, 0, 0, 0],
        &[7, 0, 1, 0, 7, 0, 0, 0],
    ];
    for text in texts {
        assert!(rt; read_change(text).is_none());
    }
}

#[test]
fn changes_are_written_one_behind_another(rt: HostRuntime) {
    let mut out = [9u8; 40];
    let clock = Change::Clock {
        now: 16,
        reports: 1,
    };
    assert!(rt; write_change(&clock, 1, &mut out) == 10);
    let links = [Link {
        block: 511,
        first: 7,
    }];
    assert!(rt;
        write_change(
            &Change::Links {
                store: 2,
                links: &links
            },
            10,
            &mut out
        ) == 21
    );
    let swap = Change::Swap {
        store: 2,
        block: 3,
        first: 9,
    };
    assert!(rt; write_change(&swap, 21, &mut out) == 30);
    let gone = Change::Gone(0x0405);
    assert!(rt; write_change(&gone, 30, &mut out) == 33);
    let forward = Change::Forward {
        add: true,
        pattern: Pattern::App(7),
    };
    assert!(rt; write_change(&forward, 33, &mut out) == 40);
    let expected = [
        9, 1, 0, 0, 0, 0, 0, 16, 0, 1, 6, 0, 2, 0, 1, 1, 255, 0, 0, 0, 7, 7, 0, 2, 0, 3, 0, 0, 0,
        9, 3, 4, 5, 4, 1, 1, 0, 7, 0, 0,
    ];
    assert!(rt; out == expected);
    let types = Change::Types {
        store: 0x0102,
        add: false,
        pattern: Pattern::Every,
    };
    assert!(rt; write_change(&types, 0, &mut out) == 9);
    assert!(rt; &out[..10] == [5u8, 1, 2, 0, 0, 0, 0, 0, 0, 1].as_slice());
    assert!(rt; write_change(&Change::Put(ROW), 0, &mut out) == 30);
    assert!(rt; out[0] == 2 && &out[1..30] == ROW_OCTETS.as_slice() && out[30] == 3);
}

// The last of some links, wherever they lie.
fn last_of<L: LinkList>(links: &L) -> Option<Link> {
    let many = links.len();
    if many == 0 {
        return None;
    }
    Some(links.get(many - 1))
}

#[test]
fn links_are_listed_wherever_they_lie(rt: HostRuntime) {
    let links = [
        Link {
            block: 511,
            first: 0,
        },
        Link { block: 7, first: 9 },
    ];
    let text = [6, 1, 2, 0, 2, 1, 255, 0, 0, 0, 0, 0, 7, 0, 0, 0, 9];
    assert!(rt; last_of(&links.as_slice()) == Some(links[1]));
    let none: &[Link] = &[];
    assert!(rt; last_of(&none).is_none());
    match read_change(&text) {
        Some(reading) => match reading.change {
            Spelled::Links { links: lying, .. } => {
                assert!(rt; last_of(&lying) == Some(links[1]));
            }
            _ => assert!(rt; false),
        },
        None => assert!(rt; false),
    }
}
