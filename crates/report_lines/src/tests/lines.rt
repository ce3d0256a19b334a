// Reports on the link: their sequence counts, and the numbers of lines and octets.

use crate::{Buffers, Failures, Sent, completed, send_event, send_verdicts, verdicts_before};
use board::{CallKind, MemBoard};
use pus_report::{Head, Verdict};
use std::test::Fail;

/// The request that is answered.
const REQUEST: [u8; 4] = [0x18, 0x0a, 0xc0, 0x01];

#[test]
fn sequence_counts_go_on_from_0(rt: HostRuntime) -> Result<(), Fail> {
    let alloc = rt.alloc();
    let mut board = MemBoard::new(alloc, 16)?;
    let mut buffers = Buffers::new(alloc)?;
    let verdicts = [Verdict::Accepted, Verdict::Completed];
    let sent = send_verdicts(&mut board, &mut buffers, 16383, 65536, REQUEST, &verdicts);
    let two = Sent {
        replies: 2,
        octets: 98,
        ..Sent::default()
    };
    assert!(rt; sent == Ok(two));
    let first = b"0 080affff001020010100000000000000010000180ac001\n".as_slice();
    let second = b"0 080ac000001020010700000000000000010000180ac001\n".as_slice();
    assert!(rt; board.sent().strip_prefix(first) == Some(second));
    Ok(())
}

#[test]
fn a_refused_packet_is_reported(rt: HostRuntime) -> Result<(), Fail> {
    let alloc = rt.alloc();
    let mut board = MemBoard::new(alloc, 16)?;
    let mut buffers = Buffers::new(alloc)?;
    let head = Head {
        count: 5,
        moment: 65536,
    };
    let one = Sent {
        replies: 1,
        octets: 65,
        ..Sent::default()
    };
    assert!(rt; send_event(&mut board, &mut buffers, head, 3, 2, 1) == Ok(one));
    let line = b"0 080ac005001820050200000000000000010000000100030000000200000001\n";
    assert!(rt; board.sent() == line.as_slice());
    board.plan(
        CallKind::Send,
        board.count(CallKind::Send).saturating_add(1),
    )?;
    assert!(rt; send_event(&mut board, &mut buffers, head, 3, 2, 1).is_err());
    assert!(rt; board.sent().len() == 65);
    Ok(())
}

#[test]
fn verdicts_stand_in_their_order(rt: HostRuntime) {
    let mut failures = Failures::new();
    let accepted_and_started = [Verdict::Accepted, Verdict::Started];
    assert!(rt;
        verdicts_before(3, failures.as_slice()).as_slice() == accepted_and_started.as_slice()
    );
    assert!(rt; completed(3, failures.as_slice()).is_empty());
    failures.push((2, 22));
    let failed = [
        Verdict::Accepted,
        Verdict::StartFailed {
            code: 22,
            detail: 2,
        },
    ];
    assert!(rt; verdicts_before(3, failures.as_slice()).as_slice() == failed.as_slice());
    let some_failed = [Verdict::CompletionFailed {
        code: 23,
        detail: 1,
    }];
    assert!(rt; completed(0, failures.as_slice()).as_slice() == some_failed.as_slice());
}
