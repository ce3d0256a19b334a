// Lines of no known form. Each one ends the session where it stands.

use super::{digits_of, session};
use session_text::LineFault;
use station::Ending;
use std::alloc::{AllocError, Global};
use std::process::Abort;
use std::test::Fail;

// In each line P stands for the 40 digits of a packet.
const LINES: [&[u8]; 94] = [
    // fields missing
    b"A\n",
    b"G\n",
    b"A \n",
    b"G \n",
    b"P\n",
    b"000000000010\n",
    b"000000000010 P\n",
    b"A P\n",
    b"G P\n",
    b"A  P\n",
    b"A 000000000010\n",
    b"A 000000000010 \n",
    // fields too many
    b"A 000000000010 P P\n",
    b"A 000000000010 000000000010 P\n",
    b"A A 000000000010 P\n",
    b"G 000000000011 0\n",
    b"G 000000000011 P\n",
    b"G 000000000011 000000000012\n",
    b"G 000000000011 G 000000000012\n",
    // fields too short and too long
    b"A 00000000010 P\n",
    b"A 0000000000010 P\n",
    b"A 0 P\n",
    b"A 000000000000000000000010 P\n",
    b"G 00000000011\n",
    b"G 0000000000011\n",
    b"G 0\n",
    b"G 000000000000000000000011\n",
    b"A 000000000010 0\n",
    b"A 000000000010 P0\n",
    b"A 000000000010 0P\n",
    b"AA 000000000010 P\n",
    b"GG 000000000011\n",
    b"A000000000010 P\n",
    b"G000000000011\n",
    b"A 000000000010P\n",
    b"A000000000010P\n",
    // other letters, and these in lower case
    b"a 000000000010 P\n",
    b"g 000000000011\n",
    b"B 000000000010 P\n",
    b"@ 000000000010 P\n",
    b"F 000000000011\n",
    b"H 000000000011\n",
    b"0 000000000011\n",
    b"R000000000010 P\n",
    b"r 000000000010 P\n",
    b"R 000000000010\n",
    b"I 000000000010 P\n",
    b"R\n",
    // other digits: those next to 0 and 9, A and F, a and f
    b"A 0000000000/0 P\n",
    b"A 0000000000:0 P\n",
    b"A @00000000010 P\n",
    b"A 00000000001G P\n",
    b"A 00000000001` P\n",
    b"A g00000000010 P\n",
    b"G 00000000001/\n",
    b"G :00000000011\n",
    b"G 00000@000011\n",
    b"G G00000000011\n",
    b"G 000000000`11\n",
    b"G 00000000001g\n",
    b"A 00000000001g 00\n",
    b"A 000000000010 P0/\n",
    b"A 000000000010 P:0\n",
    b"A 000000000010 @0P\n",
    b"A 000000000010 0GP\n",
    b"A 000000000010 P0`\n",
    b"A 000000000010 Pg0\n",
    // signs, points and prefixes
    b"A +00000000010 P\n",
    b"A -00000000010 P\n",
    b"G 0x0000000011\n",
    b"G 00000000001.\n",
    b"A 000000000010 0xP\n",
    b"A 000000000010 -1P\n",
    b"A 000000000010 P--\n",
    // CR within, or two
    b"A 000000000010\rP\n",
    b"A 000000000010 P\r\r\n",
    b"A 000000000010 P\r \n",
    b"A\x0b000000000010 P\n",
    b"A\x0c000000000010 P\n",
    b"G\r000000000011\n",
    b"\rG 000000000011\n",
    // comments behind fields
    b"A 000000000010 P # a comment\n",
    b"G 000000000011# a comment\n",
    // NUL and octets above 127
    b"\0\n",
    b"G 000000000011\0\n",
    b"G\x00000000000011\n",
    b"A 000000000010\0P\n",
    b"A 000000000010 P\0\0\n",
    b"A 0000000000\xb10 P\n",
    b"\xc1 000000000010 P\n",
    b"G\xa0000000000011\n",
    b"A 000000000010 P\xc3\xa9\n",
    b"A 000000000010 \xff\xffP\n",
    b"\xef\xbb\xbfG 000000000011\n",
];

// Last lines with no LF.
const LAST: [&[u8]; 6] = [
    b"G 00000000001",
    b"A 000000000010 P\r\r",
    b"G",
    b"g 000000000011",
    b"\0",
    b"\xff",
];

// What carries out an arrival and its grant, in other forms of the same lines.
const OTHERS: [&[u8]; 16] = [
    b"A 000000000010 P\r\nG 000000000011\r\n",
    b"A 000000000010 P\nG 000000000011",
    b"A 000000000010 P\nG 000000000011\r",
    b"\tA 000000000010 P\nG\t000000000011\t\n",
    b"A\t000000000010 P\nG 000000000011\n",
    b"A 000000000010\tP\t\nG 000000000011\n",
    b"A 000000000010 \t P  \n  G  000000000011 \r\n",
    b"# a comment\nA 000000000010 P\nG 000000000011\n",
    b"#A 000000000010 P\nA 000000000010 P\n \t# P\nG 000000000011\n#",
    b"\n\r\n \t\r\nA 000000000010 P\n\nG 000000000011\n\n",
    b"I 000000000001\nA 000000000010 P\nI 000000000010\nG 000000000011\nI 000000000012\n",
    b"A 000000000010 P\nG 000000000011\n ",
    b"A 000000000010 P\nG 000000000011\n\r",
    b"A 000000000010 P\nG 00000000000A\n",
    b"A 000000000010 P\nG 00000000000a\n",
    b"A 000000000010 P\nG FFFFFFFFFFFF\n",
];

// Appends a line, with digits for each P.
fn push_line(text: &mut Vec<u8>, line: &[u8], digits: &[u8]) -> Result<(), AllocError> {
    for &octet in line {
        if octet == b'P' {
            text.extend_from_slice(digits)?;
        } else {
            text.push(octet)?;
        }
    }
    Ok(())
}

// The line ends a session as its first line and as its third one, behind an arrival and a grant
// whose packet is sent. What stands behind it is not carried out.
fn ends_the_session(
    rt: &impl Abort,
    alloc: Global,
    line: &[u8],
    behind: &[u8],
) -> Result<(), Fail> {
    let digits = digits_of(alloc, 20, 0x0864, 13, 0xaa)?;
    for before in [b"".as_slice(), b"A 000000000010 P\nG 000000000011\n"] {
        let mut text = Vec::new(alloc);
        push_line(&mut text, before, &digits)?;
        push_line(&mut text, line, &digits)?;
        push_line(&mut text, behind, &digits)?;
        let mut sent = Vec::new(alloc);
        let mut number = 1;
        if !before.is_empty() {
            push_line(&mut sent, b"1 P\n", &digits)?;
            number = 3;
        }
        for most in [1, 4096] {
            let (ending, output) = session(alloc, &text, most, None)?;
            let bad = Ending::BadLine {
                line: number,
                why: LineFault::Form,
            };
            assert_eq!(rt; ending, bad, "takes of {most} of {text:?}");
            assert!(rt; output == sent, "takes of {most} of {text:?}");
        }
    }
    Ok(())
}

#[test]
fn a_line_of_no_known_form_ends_the_session(rt: HostRuntime) -> Result<(), Fail> {
    for line in LINES {
        ends_the_session(&rt, rt.alloc(), line, b"A 000000000012 P\nG 000000000013\n")?;
    }
    for line in LAST {
        ends_the_session(&rt, rt.alloc(), line, b"")?;
    }
    Ok(())
}

#[test]
fn other_forms_of_a_line_are_carried_out_as_it_is(rt: HostRuntime) -> Result<(), Fail> {
    let alloc = rt.alloc();
    let digits = digits_of(alloc, 20, 0x0864, 13, 0xaa)?;
    let mut sent = Vec::new(alloc);
    push_line(&mut sent, b"1 P\n", &digits)?;
    for lines in OTHERS {
        let mut text = Vec::new(alloc);
        push_line(&mut text, lines, &digits)?;
        for most in [1, 7, 4096] {
            let (ending, output) = session(alloc, &text, most, None)?;
            assert_eq!(rt; ending, Ending::Done, "takes of {most} of {text:?}");
            assert!(rt; output == sent, "takes of {most} of {text:?}");
        }
    }
    Ok(())
}

#[test]
fn a_text_may_be_cut_at_every_octet(rt: HostRuntime) -> Result<(), Fail> {
    let alloc = rt.alloc();
    let digits = digits_of(alloc, 20, 0x0864, 13, 0xaa)?;
    let mut sent = Vec::new(alloc);
    push_line(&mut sent, b"1 P\n", &digits)?;
    let mut text = Vec::new(alloc);
    push_line(
        &mut text,
        b"# pass 1\r\n\n \tA  000000000010\tP \r\nI 000000000010\nG 000000000011\r",
        &digits,
    )?;
    for most in 1..text.len() {
        let (ending, output) = session(alloc, &text, most, None)?;
        assert_eq!(rt; ending, Ending::Done, "cut at {most}");
        assert!(rt; output == sent, "cut at {most}");
    }
    Ok(())
}
