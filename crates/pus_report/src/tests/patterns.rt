// The reports of patterns.

use super::{LAST, has_front, has_rows, head_of};
use crate::{write_forward, write_types};
use control_defs::Pattern;

#[test]
fn each_form_of_pattern_has_five_octets(rt: HostRuntime) {
    let patterns = [
        Pattern::Every,
        Pattern::App(258),
        Pattern::Service(2047, 5),
        Pattern::Kind(10, 3, 25),
    ];
    let mut out = [0xaa_u8; 1024];
    assert_eq!(rt; write_forward(head_of(2, 0x44), &patterns, &mut out), 40);
    let forwarded = [
        0x08, 0x0a, 0xc0, 2, 0, 0x21, 0x20, 14, 4, 0, 0, 0, 0, 0, 0, 0, 0, 0, 0x44, 4, 0, 0, 0, 0,
        0, 1, 1, 2, 0, 0, 2, 7, 0xff, 5, 0, 3, 0, 10, 3, 25,
    ];
    assert!(rt; has_front(&out, &forwarded));
    let mut out = [0xaa_u8; 1024];
    assert_eq!(rt;
        write_types(head_of(5, 0x46), 0x0102, &patterns, &mut out),
        42
    );
    let taken = [
        0x08, 0x0a, 0xc0, 5, 0, 0x23, 0x20, 15, 6, 0, 0, 0, 0, 0, 0, 0, 0, 0, 0x46, 1, 2, 4, 0, 0,
        0, 0, 0, 1, 1, 2, 0, 0, 2, 7, 0xff, 5, 0, 3, 0, 10, 3, 25,
    ];
    assert!(rt; has_front(&out, &taken));
}

#[test]
fn no_pattern_leaves_the_number_alone(rt: HostRuntime) {
    let mut out = [0xaa_u8; 1024];
    assert_eq!(rt; write_forward(head_of(0, 0), &[], &mut out), 20);
    let forwarded = [
        0x08, 0x0a, 0xc0, 0, 0, 0x0d, 0x20, 14, 4, 0, 0, 0, 0, 0, 0, 0, 0, 0, 0, 0,
    ];
    assert!(rt; has_front(&out, &forwarded));
    let mut out = [0xaa_u8; 1024];
    assert_eq!(rt; write_types(head_of(0, 0), 0, &[], &mut out), 22);
    let taken = [
        0x08, 0x0a, 0xc0, 0, 0, 0x0f, 0x20, 15, 6, 0, 0, 0, 0, 0, 0, 0, 0, 0, 0, 0, 0, 0,
    ];
    assert!(rt; has_front(&out, &taken));
}

#[test]
fn sixty_four_patterns_fit(rt: HostRuntime) {
    let patterns = [Pattern::Kind(2047, 254, 253); 64];
    let row = [3, 7, 0xff, 254, 253];
    let mut out = [0xaa_u8; 1024];
    assert_eq!(rt; write_forward(LAST, &patterns, &mut out), 340);
    let forwarded = [
        0x08, 0x0a, 0xff, 0xff, 0x01, 0x4d, 0x20, 14, 4, 0, 0, 0, 0, 0xff, 0xff, 0xff, 0xff, 0xff,
        0xff, 64,
    ];
    assert!(rt; has_rows(&out, &forwarded, &row, 64));
    let mut out = [0xaa_u8; 1024];
    assert_eq!(rt; write_types(LAST, 0xffff, &patterns, &mut out), 342);
    let taken = [
        0x08, 0x0a, 0xff, 0xff, 0x01, 0x4f, 0x20, 15, 6, 0, 0, 0, 0, 0xff, 0xff, 0xff, 0xff, 0xff,
        0xff, 0xff, 0xff, 64,
    ];
    assert!(rt; has_rows(&out, &taken, &row, 64));
}
