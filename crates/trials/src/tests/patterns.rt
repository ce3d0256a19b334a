// As many patterns as a list has, and a link that breaks within a forwarded line.

use super::{fresh, sent};
use crate::half_board::HalfBoard;
use crate::short_source::ShortSource;
use station::{Ending, station};
use std::alloc::{AllocError, Global};
use std::test::Fail;

// Appends a request [14,1] of the patterns of 32 applications, or of one, the first of which has
// this APID.
fn push_applications(
    alloc: Global,
    text: &mut String,
    first: u16,
    count: u16,
) -> Result<(), AllocError> {
    let length = count.wrapping_mul(5).wrapping_add(5);
    text.push_str(format!(in alloc;
        "R 000000000007 180ac000{length:04x}200e010000{count:02x}"
    )?.as_str())?;
    push_patterns(alloc, text, first, count)?;
    text.push_str("\n")
}

// Appends the octets of the patterns of applications.
fn push_patterns(
    alloc: Global,
    text: &mut String,
    first: u16,
    count: u16,
) -> Result<(), AllocError> {
    for number in 0..count {
        let apid = first.wrapping_add(number);
        text.push_str(format!(in alloc; "01{apid:04x}0000")?.as_str())?;
    }
    Ok(())
}

// 64 patterns stand; one more is refused, unless those that it covers leave.
#[test]
fn sixty_four_patterns_are_the_most(rt: HostRuntime) -> Result<(), Fail> {
    let alloc = rt.alloc();
    let mut text = String::new(alloc);
    push_applications(alloc, &mut text, 0, 32)?;
    push_applications(alloc, &mut text, 2016, 32)?;
    push_applications(alloc, &mut text, 100, 1)?;
    text.push_str("R 000000000007 180ac0000004200e030000\n")?;
    text.push_str("R 000000000007 180ac000000a200e010000010000000000\n")?;
    text.push_str("R 000000000007 180ac0000004200e030000\n")?;
    let mut expected = String::from_str(
        alloc,
        "0 080ac000001320010400000000000000000007180ac000140001
0 080ac001001320010800000000000000000007180ac000170001
0 080ac002014d200e040000000000000000000740",
    )?;
    push_patterns(alloc, &mut expected, 0, 32)?;
    push_patterns(alloc, &mut expected, 2016, 32)?;
    expected.push_str("\n0 080ac0030012200e0400000000000000000007010000000000\n")?;
    let Some(sent) = sent(alloc, text.as_str())? else {
        panic!(rt; "no end");
    };
    assert!(rt; sent.as_slice() == expected.as_bytes());
    Ok(())
}

// The first forwarded line goes out, the second by half.
#[test]
fn a_link_that_breaks_within_a_forwarded_line(rt: HostRuntime) -> Result<(), Fail> {
    let alloc = rt.alloc();
    let text = b"R 000000000001 180ac000000a200e010000010000000000
A 000000000002 0864c000000001
A 000000000003 0864c000000002
G 000000000004
";
    let whole = b"0 0864c000000001\n0 0864c000000002\n1 0864c000000001\n";
    for (number, octets, wanted) in [
        (1, 8, Ending::LinkFault),
        (2, 25, Ending::LinkFault),
        (3, 42, Ending::LinkFault),
        (4, 51, Ending::Done),
    ] {
        let mut board = HalfBoard::new(alloc, 16)?;
        board.plan(number);
        let mut source = ShortSource::new(text.to_vec(alloc)?, 4096);
        let ending = station(alloc, &fresh(alloc)?, &mut source, &mut board);
        assert_eq!(rt; ending, wanted, "send {number}");
        assert!(rt; board.sent() == &whole[..octets], "send {number}");
    }
    Ok(())
}
