// Ground requests, and the reports that answer them.
ghost use Rattle.std.specs.Prelude.{◌<◌};

use super::{fresh, sent};
use crate::half_board::HalfBoard;
use crate::short_source::ShortSource;
use station::{Ending, station};
use std::alloc::{AllocError, Global};
use std::test::Fail;

/// A request, and the reports that answer it: their subtypes, and what they have behind the
/// request's identifier.
type Case = (&'static str, &'static [(u8, &'static str)]);

/// Each in a session of its own, at moment 7.
const ALONE: [Case; 60] = [
    // another APID, in any packet
    ("180bc0000004200f120000", &[(2, "01000b")]),
    ("07ffc000000000", &[(2, "0107ff")]),
    ("0000c000000000", &[(2, "010000")]),
    // telemetry, no secondary header, four octets of one, other versions
    ("080ac0000004200f120000", &[(2, "020000")]),
    ("100ac0000004200f120000", &[(2, "020001")]),
    ("180ac0000003200f1200", &[(2, "020001")]),
    ("180ac0000004100f120000", &[(2, "020101")]),
    ("180ac0000004f00f120000", &[(2, "02010f")]),
    // other services and subtypes
    ("180ac00000042011010000", &[(2, "030011")]),
    ("180ac0000004200f000000", &[(2, "040000")]),
    ("180ac0000004200fff0000", &[(2, "0400ff")]),
    // two judgements that refuse: the first one is told
    ("080bc0000004100f120000", &[(2, "01000b")]),
    ("080ac0000004100f120000", &[(2, "020000")]),
    ("180ac00000041011000000", &[(2, "020101")]),
    ("180ac00000042011ff0000", &[(2, "030011")]),
    ("180ac0000004200fff0000", &[(2, "0400ff")]),
    // no count, none, 33, and items that lack an octet or have one too many
    ("180ac0000004200f010000", &[(2, "050000")]),
    ("180ac0000005200f02000000", &[(2, "050000")]),
    ("180ac0000007200f100000210001", &[(2, "050000")]),
    ("180ac0000006200f0f00000100", &[(2, "050002")]),
    ("180ac0000008200f01000001000100", &[(2, "050003")]),
    ("180ac0000005200f01000020", &[(2, "050001")]),
    ("180ac0000004200f090000", &[(2, "050000")]),
    ("180ac0000007200f0e0000010001", &[(2, "050003")]),
    ("180ac0000007200f1c0000010001", &[(2, "050003")]),
    ("180ac0000004200f0b0000", &[(2, "050000")]),
    ("180ac0000007200f150000020001", &[(2, "050003")]),
    // known and not carried out yet, whatever their data is
    ("180ac0000007200f140000010001", &[(2, "040014")]),
    ("180ac0000007200f180000010001", &[(2, "040018")]),
    ("180ac0000004200f190000", &[(2, "040019")]),
    // patterns of no form, with an APID past the last one, and with fields that are not used and
    // not zero
    ("180ac000000a200e010000010400000000", &[(2, "050001")]),
    ("180ac000000a200e010000010108000000", &[(2, "050002")]),
    ("180ac000000a200e010000010000010000", &[(2, "050003")]),
    ("180ac000000a200e010000010000070000", &[(2, "050003")]),
    ("180ac000000a200e010000010001070000", &[(2, "050002")]),
    (
        "180ac0000013200f03000002000700000000000007 0000010000",
        &[(2, "05000c")],
    ),
    ("180ac000000a200e010000010000000100", &[(2, "050004")]),
    ("180ac000000a200e010000010100640001", &[(2, "050005")]),
    ("180ac000000a200e010000010200640301", &[(2, "050005")]),
    (
        "180ac000000f200e0100000200000000000200640101",
        &[(2, "05000a")],
    ),
    ("180ac0000009200e0100000103006403", &[(2, "050005")]),
    // one item alone has no count
    ("180ac0000005200e03000000", &[(2, "050000")]),
    ("180ac0000005200f12000001", &[(2, "050000")]),
    ("180ac0000005200f05000001", &[(2, "050001")]),
    ("180ac0000007200f050000010001", &[(2, "050002")]),
    // so already, both ways, and a store that does not stand
    (
        "180ac0000007200f010000010001",
        &[(4, "160001"), (8, "170001")],
    ),
    (
        "180ac0000007200f0f0000010001",
        &[(4, "160001"), (8, "170001")],
    ),
    (
        "180ac0000009200f02000002 00010001",
        &[(4, "160002"), (8, "170001")],
    ),
    (
        "180ac0000009200f10000002 00010001",
        &[(4, "160002"), (8, "170001")],
    ),
    (
        "180ac000000b200f02000003 000200010000",
        &[(4, "060001"), (4, "060003"), (8, "170002")],
    ),
    // ranges: no store, reversed times, and none that stands
    (
        "180ac0000013200f090000 01 0002 000000000002 000000000001",
        &[(4, "060001"), (8, "170001")],
    ),
    (
        "180ac0000013200f090000 01 0001 000000000002 000000000001",
        &[(4, "0f0001"), (8, "170001")],
    ),
    (
        "180ac0000007200f110000 01 0001",
        &[(4, "160001"), (8, "170001")],
    ),
    // open retrieval is moved while it is on
    (
        "180ac000000d200f0e0000 01 0001 000000000005",
        &[(4, "0d0001"), (8, "170001")],
    ),
    // packets that are deleted while open retrieval is on, and of a store that does not stand
    (
        "180ac0000015200f0b0000 02 0001 000000000005 0002 000000000005",
        &[(4, "0d0001"), (4, "060002"), (8, "170002")],
    ),
    // stores that are deleted: one that does not stand, and one whose storage is on
    (
        "180ac0000009200f150000 02 0002 0001",
        &[(4, "060001"), (4, "0c0002"), (8, "170002")],
    ),
    // another kind, and the same one, while storage is on; behind it, while open retrieval is on
    (
        "180ac0000007200f1b0000 01 0001",
        &[(4, "0c0001"), (8, "170001")],
    ),
    (
        "180ac0000007200f1a0000 01 0001",
        &[(4, "0c0001"), (8, "170001")],
    ),
    // channels that are none, and one while open retrieval is on
    (
        "180ac000000b200f1c0000 02 000100 000108",
        &[(4, "0b0001"), (4, "0b0002"), (8, "170002")],
    ),
    (
        "180ac0000008200f1c0000 01 0001 02",
        &[(4, "0d0001"), (8, "170001")],
    ),
];

// The line of a report of service 1, at moment 7.
fn report(
    alloc: Global,
    count: u16,
    subtype: u8,
    identifier: &str,
    rest: &str,
) -> Result<String, AllocError> {
    let control = 0xc000 | count;
    let length = if rest.is_empty() { 0x10 } else { 0x13 };
    format!(in alloc;
        "0 080a{control:04x}{length:04x}2001{subtype:02x}00000000000000000007{identifier}{rest}\n"
    )
}

// The reports that answer a request, the first of which has this count.
fn reports(
    alloc: Global,
    first: u16,
    identifier: &str,
    answers: &[(u8, &str)],
) -> Result<String, AllocError> {
    let mut lines = String::new(alloc);
    let mut count = first;
    for (subtype, rest) in answers {
        lines.push_str(report(alloc, count, *subtype, identifier, rest)?.as_str())?;
        count = count.wrapping_add(1) % 16384;
    }
    Ok(lines)
}

#[test]
fn each_request_has_its_reports(rt: HostRuntime) -> Result<(), Fail> {
    let alloc = rt.alloc();
    for (request, answers) in ALONE {
        let request = request.replace(alloc, " ", "")?;
        let text = format!(in alloc; "R 000000000007 {request}\n")?;
        let mut identifier = String::new(alloc);
        for digit in request.as_str().chars().take(8) {
            identifier.push(digit)?;
        }
        let expected = reports(alloc, 0, identifier.as_str(), answers)?;
        let Some(sent) = sent(alloc, text.as_str())? else {
            panic!(rt; "{request}");
        };
        assert!(rt; sent.as_slice() == expected.as_bytes(), "{request}");
    }
    Ok(())
}

// Of a request that takes effect, and of one that fails.
#[test]
fn flags_ask_for_reports(rt: HostRuntime) -> Result<(), Fail> {
    let alloc = rt.alloc();
    for acks in 0..16u8 {
        let text = format!(in alloc;
            "R 000000000007 180ac00000072{acks:x}0f10000001 0001\nR 000000000007 180ac00000072{acks:x}0f10000001 0001\n"
        )?;
        let text = text.replace(alloc, "01 0001", "010001")?;
        let mut answers: Vec<(u8, &str)> = Vec::new(alloc);
        let mut done: u16 = 0;
        for (flag, subtype) in [(1, 1), (2, 3), (8, 7)] {
            if acks & flag != 0 {
                answers.push((subtype, ""))?;
                done = done.saturating_add(1);
            }
        }
        let mut expected = reports(alloc, 0, "180ac000", &answers)?;
        answers.clear();
        if acks & 1 != 0 {
            answers.push((1, ""))?;
        }
        answers.push((4, "160001"))?;
        answers.push((8, "170001"))?;
        expected.push_str(reports(alloc, done, "180ac000", &answers)?.as_str())?;
        let Some(sent) = sent(alloc, text.as_str())? else {
            panic!(rt; "{acks}");
        };
        assert!(rt; sent.as_slice() == expected.as_bytes(), "{acks}");
    }
    Ok(())
}

#[test]
fn thirty_two_instructions_are_the_most(rt: HostRuntime) -> Result<(), Fail> {
    let alloc = rt.alloc();
    let mut text = String::from_str(alloc, "R 000000000007 180ac0000045200f02000020")?;
    let mut details: Vec<String> = Vec::new(alloc);
    let mut answers: Vec<(u8, &str)> = Vec::new(alloc);
    for number in 1..33u8 {
        text.push_str("0001")?;
        details.push(format!(in alloc; "1600{number:02x}")?)?;
    }
    text.push_str("\n")?;
    for detail in details.iter().skip(1) {
        answers.push((4, detail.as_str()))?;
    }
    answers.push((8, "17001f"))?;
    let Some(sent) = sent(alloc, text.as_str())? else {
        panic!(rt; "no end");
    };
    assert!(rt; sent.as_slice() == reports(alloc, 0, "180ac000", &answers)?.as_bytes());
    Ok(())
}

#[test]
fn storage_and_open_retrieval_are_switched(rt: HostRuntime) -> Result<(), Fail> {
    let alloc = rt.alloc();
    let text = "R 000000000001 180ac0000007200f100000 01 0001
A 000000000002 0864c000000001
G 000000000003
R 000000000004 180ac0000007200f020000 01 0001
A 000000000005 0864c000000002
R 000000000006 180ac0000007200f0f0000 01 0001
G 000000000007
G 000000000008
R 000000000009 180ac0000007200f010000 01 0001
A 00000000000a 0864c000000003
G 00000000000b
";
    let text = text.replace(alloc, " 01 0001", "010001")?;
    let Some(sent) = sent(alloc, text.as_str())? else {
        panic!(rt; "no end");
    };
    assert!(rt; sent.as_slice() == b"1 0864c000000001\n1 0864c000000003\n".as_slice());
    Ok(())
}

// A range retrieval of times 2 to 4 goes first, and open retrieval goes on from time 4 once it was moved
// there. Behind that the store is on another channel, and of the other kind.
#[test]
fn ranges_and_rows_are_changed(rt: HostRuntime) -> Result<(), Fail> {
    let alloc = rt.alloc();
    let text = "A 000000000001 0864c000000001
A 000000000002 0864c000000002
A 000000000003 0864c000000003
A 000000000004 0864c000000004
R 000000000005 180ac0000013200f090000010001000000000002000000000004
G 000000000006
R 000000000007 180ac0000007200f110000010001
G 000000000008
R 000000000009 180ac0000007200f100000010001
R 000000000009 180ac000000d200f0e0000010001000000000004
R 000000000009 180ac0000008200f1c000001000107
R 000000000009 180ac0000007200f020000010001
R 000000000009 180ac0000007200f1b0000010001
R 000000000009 180ac0000007200f0f0000010001
G 00000000000a
G 00000000000b
R 00000000000c 180ac0000004200f160000
";
    let Some(sent) = sent(alloc, text)? else {
        panic!(rt; "no end");
    };
    let expected = b"1 0864c000000002
1 0864c000000001
7 0864c000000004
0 080ac0000015200f170000000000000000000c010001010000004007
"
        .as_slice();
    assert!(rt; sent.as_slice() == expected);
    Ok(())
}

// Two packets leave the front, and the third one is retrieved. Then the store is deleted, so the fourth
// one is stored nowhere.
#[test]
fn packets_and_stores_are_deleted(rt: HostRuntime) -> Result<(), Fail> {
    let alloc = rt.alloc();
    let text = "A 000000000001 0864c000000001
A 000000000002 0864c000000002
A 000000000003 0864c000000003
R 000000000004 180ac0000007200f100000010001
R 000000000004 180ac000000d200f0b0000010001000000000002
R 000000000004 180ac0000007200f0c0000010001
R 000000000004 180ac0000007200f0f0000010001
G 000000000005
R 000000000006 180ac0000007200f020000010001
R 000000000006 180ac0000007200f100000010001
R 000000000006 180ac0000007200f150000010001
A 000000000007 0864c000000004
R 000000000008 180ac0000004200f160000
G 000000000009
";
    let Some(sent) = sent(alloc, text)? else {
        panic!(rt; "no end");
    };
    let expected =
        b"0 080ac0000027200f0d00000000000000000004010001000000010000000100000000000300000000000300000001
1 0864c000000003
0 080ac001000d200f170000000000000000000800
"
            .as_slice();
    assert!(rt; sent.as_slice() == expected);
    Ok(())
}

#[test]
fn the_count_of_reports_goes_on_from_0(rt: HostRuntime) -> Result<(), Fail> {
    let alloc = rt.alloc();
    let mut text = String::new(alloc);
    let mut expected = String::new(alloc);
    for number in 0..16386u16 {
        text.push_str("R 000000000007 180bc0000004200f120000\n")?;
        let line = report(alloc, number % 16384, 2, "180bc000", "01000b")?;
        expected.push_str(line.as_str())?;
    }
    let Some(sent) = sent(alloc, text.as_str())? else {
        panic!(rt; "no end");
    };
    assert!(rt; sent.as_slice() == expected.as_bytes());
    Ok(())
}

// The second of a request's two reports goes out by half.
#[test]
fn a_link_that_breaks_within_a_report_has_sent_those_before(rt: HostRuntime) -> Result<(), Fail> {
    let alloc = rt.alloc();
    let text = b"R 000000000007 180ac0000007290f100000010001\nG 000000000008\n";
    let whole = reports(alloc, 0, "180ac000", &[(1, ""), (7, "")])?;
    assert_eq!(rt; whole.len(), 98);
    for (number, octets, wanted) in [
        (1, 24, Ending::LinkFault),
        (2, 73, Ending::LinkFault),
        (3, 98, Ending::Done),
    ] {
        let mut board = HalfBoard::new(alloc, 16)?;
        board.plan(number);
        let mut source = ShortSource::new(text.to_vec(alloc)?, 4096);
        let ending = station(alloc, &fresh(alloc)?, &mut source, &mut board);
        assert_eq!(rt; ending, wanted, "send {number}");
        assert!(rt; board.sent().len() == octets, "send {number}");
        assert!(rt; whole.as_bytes().starts_with(board.sent()), "send {number}");
    }
    Ok(())
}
