// Checkpoints by their octets, written out by hand.

use crate::checkpoint_text::{CheckpointText, put_counts, put_head};
use crate::link_text::LinkList;
use crate::pattern_text::{patterns_from, put_patterns};
use crate::row::Row;
use crate::store_text::{put_store, store_from};
use control_defs::{Pattern, StoreKind};
use octet_fields::put_u8;
use record_view::Link;

pub(crate) const ROW: Row = Row {
    identifier: 1,
    kind: StoreKind::Circular,
    size: 64,
    channel: 1,
    storage: true,
    open_on: true,
    told: false,
    first: 0,
    count: 1,
    behind: 0,
    range: None,
};

// A store with one pattern and one link.
const STORE: [u8; 43] = [
    0, 1, 0, 0, 0, 0, 64, 1, 3, 0, 0, 0, 0, 0, 0, 0, 1, 0, 0, 0, 0, 0, 0, 0, 0, 0, 0, 0, 0, 1, 3,
    0, 100, 3, 25, 0, 1, 0, 7, 0, 0, 0, 0,
];

// On a device of two blocks: a time of 16, one report, two forward patterns, the store, and the
// erase counts 5 and 256.
const FRONT: [u8; 20] = [
    0, 0, 0, 0, 0, 16, 0, 1, 2, 1, 0, 7, 0, 0, 2, 0, 100, 3, 0, 1,
];

const WEAR: [u8; 8] = [0, 0, 0, 5, 0, 0, 1, 0];

fn whole() -> [u8; 71] {
    let mut text = [0u8; 71];
    text[..20].copy_from_slice(&FRONT);
    text[20..63].copy_from_slice(&STORE);
    text[63..].copy_from_slice(&WEAR);
    text
}

#[test]
fn a_checkpoint_is_read_part_by_part(rt: HostRuntime) {
    let text = whole();
    let Some(mut read) = CheckpointText::read(&text, 2) else {
        panic!(rt; "no checkpoint");
    };
    assert!(rt; read.now == 16 && read.reports == 1);
    assert!(rt; read.forward.len() == 2);
    assert!(rt; read.forward.get(0) == Pattern::App(7));
    assert!(rt; read.forward.get(1) == Pattern::Service(100, 3));
    let Some(store) = read.stores.next_store() else {
        panic!(rt; "no store");
    };
    assert!(rt; store.row == ROW);
    assert!(rt; store.patterns.len() == 1);
    assert!(rt; store.patterns.get(0) == Pattern::Kind(100, 3, 25));
    assert!(rt; store.links.len() == 1);
    assert!(rt; store.links.get(0) == Link { block: 7, first: 0 });
    assert!(rt; read.stores.next_store().is_none());
    let mut wear = [0u32; 2];
    assert!(rt; read.wear.len() == 2);
    read.wear.copy_into(&mut wear);
    assert!(rt; wear == [5, 256]);
}

#[test]
fn a_text_of_other_octets_is_no_checkpoint(rt: HostRuntime) {
    let text = whole();
    assert!(rt; CheckpointText::read(&text, 1).is_none());
    assert!(rt; CheckpointText::read(&text, 3).is_none());
    assert!(rt; CheckpointText::read(&text[..67], 1).is_some());
    assert!(rt; CheckpointText::read(&text[..66], 1).is_none());
    assert!(rt; CheckpointText::read(&text[..63], 0).is_some());
    let shorter: [&[u8]; 8] = [
        &text[..0],
        &text[..7],
        &text[..8],
        &text[..13],
        &text[..19],
        &text[..40],
        &text[..52],
        &text[..56],
    ];
    for text in shorter {
        assert!(rt; CheckpointText::read(text, 0).is_none());
    }
}

#[test]
fn each_octet_that_is_looked_at_must_be_spelled(rt: HostRuntime) {
    // The number and the form of the forward patterns, an octet that a pattern does not use, the
    // number of stores, the kind and the flags of the row, its positions without a range, the
    // number and the form of its patterns, and the number of its links.
    for (place, octet) in [
        (8, 3),
        (9, 4),
        (12, 1),
        (13, 1),
        (19, 0),
        (19, 2),
        (22, 2),
        (28, 16),
        (44, 1),
        (49, 0),
        (50, 4),
        (56, 2),
    ] {
        let mut text = whole();
        if let Some(there) = text.get_mut(place) {
            *there = octet;
        }
        assert!(rt; CheckpointText::read(&text, 2).is_none());
    }
}

#[test]
fn patterns_in_another_order_are_no_list(rt: HostRuntime) {
    let rising = [2, 1, 0, 7, 0, 0, 1, 0, 8, 0, 0, 9];
    let falling = [2, 1, 0, 8, 0, 0, 1, 0, 7, 0, 0];
    let covered = [2, 1, 0, 8, 0, 0, 2, 0, 8, 1, 0];
    match patterns_from(&rising) {
        Some((patterns, rest)) => {
            assert!(rt; rest == [9u8].as_slice());
            match patterns.to_patterns() {
                Some(list) => {
                    assert!(rt; list.list() == [Pattern::App(7), Pattern::App(8)].as_slice());
                }
                None => assert!(rt; false),
            }
        }
        None => assert!(rt; false),
    }
    for text in [falling, covered] {
        match patterns_from(&text) {
            Some((patterns, _)) => assert!(rt; patterns.to_patterns().is_none()),
            None => assert!(rt; false),
        }
    }
}

#[test]
fn a_store_ends_behind_its_links(rt: HostRuntime) {
    match store_from(&whole()[20..]) {
        Some((store, rest)) => assert!(rt; store.row == ROW && rest == WEAR.as_slice()),
        None => assert!(rt; false),
    }
}

#[test]
fn a_checkpoint_is_written_part_by_part(rt: HostRuntime) {
    let mut out = [9u8; 72];
    assert!(rt; put_head(16, 1, &mut out, 0) == 8);
    let forward = [Pattern::App(7), Pattern::Service(100, 3)];
    assert!(rt; put_patterns(&forward, &mut out, 8) == 19);
    put_u8(&mut out, 19, 1);
    let types = [Pattern::Kind(100, 3, 25)];
    let links = [Link { block: 7, first: 0 }];
    assert!(rt; put_store(&ROW, &types, &links, &mut out, 20) == 63);
    assert!(rt; put_counts(&[5, 256], &mut out, 63) == 71);
    assert!(rt; &out[..71] == whole().as_slice());
    assert!(rt; out[71] == 9);
}
