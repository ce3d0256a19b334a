// The event report of a refused put.

use super::{LAST, has_front, head_of};
use crate::write_event;

#[test]
fn a_refused_put_has_its_store_and_its_pages(rt: HostRuntime) {
    let mut out = [0xaa_u8; 1024];
    assert_eq!(rt; write_event(head_of(0, 0x33), 2, 1, 0, &mut out), 31);
    let report = [
        0x08, 0x0a, 0xc0, 0, 0, 0x18, 0x20, 5, 2, 0, 0, 0, 0, 0, 0, 0, 0, 0, 0x33, 0, 1, 0, 2, 0,
        0, 0, 1, 0, 0, 0, 0,
    ];
    assert!(rt; has_front(&out, &report));
}

#[test]
fn the_greatest_numbers_have_all_their_octets(rt: HostRuntime) {
    let mut out = [0xaa_u8; 1024];
    assert_eq!(rt;
        write_event(LAST, 0xfffe, 0xfdfc_fbfa, 0xf9f8_f7f6, &mut out),
        31
    );
    let report = [
        0x08, 0x0a, 0xff, 0xff, 0, 0x18, 0x20, 5, 2, 0, 0, 0, 0, 0xff, 0xff, 0xff, 0xff, 0xff,
        0xff, 0, 1, 0xff, 0xfe, 0xfd, 0xfc, 0xfb, 0xfa, 0xf9, 0xf8, 0xf7, 0xf6,
    ];
    assert!(rt; has_front(&out, &report));
}
