// The six verdicts on a request.

use super::{has_front, head_of};
use crate::{Verdict, write_verdict};

/// The identifier of a request of APID 10 with sequence count 0.
const REQUEST: [u8; 4] = [0x18, 0x0a, 0xc0, 0];

#[test]
fn a_failure_has_a_code_and_a_detail(rt: HostRuntime) {
    let rows = [
        (
            Verdict::Refused {
                code: 1,
                detail: 11,
            },
            [2, 1, 0, 11],
        ),
        (
            Verdict::StartFailed {
                code: 22,
                detail: 2,
            },
            [4, 22, 0, 2],
        ),
        (
            Verdict::CompletionFailed {
                code: 23,
                detail: 258,
            },
            [8, 23, 1, 2],
        ),
    ];
    for (verdict, [subtype, code, high, low]) in rows {
        let report = [
            0x08, 0x0a, 0xc0, 0, 0, 0x13, 0x20, 1, subtype, 0, 0, 0, 0, 0, 0, 0, 0, 0, 7, 0x18,
            0x0a, 0xc0, 0, code, high, low,
        ];
        let mut out = [0xaa_u8; 1024];
        assert_eq!(rt;
            write_verdict(head_of(0, 7), verdict, REQUEST, &mut out),
            26
        );
        assert!(rt; has_front(&out, &report));
    }
}

#[test]
fn a_success_has_neither(rt: HostRuntime) {
    let rows = [
        (Verdict::Accepted, 1),
        (Verdict::Started, 3),
        (Verdict::Completed, 7),
    ];
    for (verdict, subtype) in rows {
        let report = [
            0x08, 0x0a, 0xff, 0xff, 0, 0x10, 0x20, 1, subtype, 0, 0, 0, 0, 1, 2, 3, 4, 5, 6, 0x18,
            0x0a, 0xc0, 0,
        ];
        let mut out = [0xaa_u8; 1024];
        assert_eq!(rt;
            write_verdict(head_of(16383, 0x0102_0304_0506), verdict, REQUEST, &mut out),
            23
        );
        assert!(rt; has_front(&out, &report));
    }
}
