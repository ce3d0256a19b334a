// Texts that come in pieces, a table of bad lines, and what is written.
ghost use Rattle.std.specs.Prelude.{◌≡◌, ◌<◌, ◌^◌, true, IsTrue};
ghost use Rattle.session_text.specs.Lending.{reader_of};

use super::*;
use board::{Failed, Source};
use space_packet::PacketFault;
use std::alloc::Global;
use std::fmt::InlineText;
use std::test::Fail;

const PACKET: [u8; 20] = [
    8, 100, 192, 0, 0, 13, 32, 3, 25, 0, 0, 0, 0, 0, 0, 0, 0, 0, 16, 170,
];

/// A text that is given in pieces of at most so many octets, and never fails.
#[derive(Drop)]
struct Pieces<'a> {
    text: &'a [u8],
    most: usize,
    takes: u64,
    ghost some: { 0 < most },
}

impl<'a> Source for Pieces<'a> {
    ghost means = { record { tells = λ pieces. true; left = λ pieces. pieces.text.now; faults = λ pieces. 0; takes = λ pieces. pieces.takes } };

    fn take(&mut self, into: &mut [u8]) -> Result<usize, Failed> {
        let count = self.text.len().min(into.len()).min(self.most);
        into[..count].copy_from_slice(&self.text[..count]);
        self.text = &self.text[count..];
        self.takes = self.takes.saturating_add(1);
        Ok(count)
    }
}

fn end_of(lines: &mut Lines, source: &mut Pieces) -> Option<LineEnd>
    requires { IsTrue (reader_of lines.old).live }
{
    match lines.next_line(source) {
        Ok(_) => None,
        Err(end) => Some(end),
    }
}

#[test]
fn commands_come_one_by_one_and_then_none(rt: HostRuntime) -> Result<(), Fail> {
    let text =
        b"A 000000000010 0864c000000d20031900000000000000000010aa\nG 000000000011\nR 000000000012 07ffc000000000\n";
    for most in [1, 7, 4096] {
        let mut source = Pieces {
            text,
            most,
            takes: 0,
        };
        let mut lines = Lines::new(rt.alloc(), text.len() as u64)?;
        assert!(rt; lines.is_live());
        match lines.next_line(&mut source) {
            Ok(Some(Command::Arrival { moment, packet })) => {
                assert_eq!(rt; moment, 16, "pieces of {most}");
                assert!(rt; packet.bytes() == PACKET.as_slice(), "pieces of {most}");
            }
            _ => assert!(rt; false, "no arrival in pieces of {most}"),
        }
        assert!(rt; lines.is_live());
        match lines.next_line(&mut source) {
            Ok(Some(Command::Grant { moment })) => assert_eq!(rt; moment, 17, "pieces of {most}"),
            _ => assert!(rt; false, "no grant in pieces of {most}"),
        }
        assert!(rt; lines.is_live());
        match lines.next_line(&mut source) {
            Ok(Some(Command::Request { moment, packet })) => {
                assert_eq!(rt; moment, 18, "pieces of {most}");
                assert!(rt; packet.is_idle(), "pieces of {most}");
            }
            _ => assert!(rt; false, "no request in pieces of {most}"),
        }
        assert!(rt; lines.is_live());
        assert!(rt;
            matches!(lines.next_line(&mut source), Ok(None)),
            "pieces of {most}"
        );
    }
    Ok(())
}

#[test]
fn the_first_bad_line_ends_the_reading(rt: HostRuntime) -> Result<(), Fail> {
    let long = PacketFault::Long { have: 21, need: 20 };
    let short = PacketFault::Short { have: 19, need: 20 };
    let version = PacketFault::Version { found: 1 };
    let few = PacketFault::Short { have: 1, need: 6 };
    let rows: [(&[u8], LineFault); 27] = [
        (b"a 000000000010 00\n", LineFault::Form),
        (b"A 00000000001 00\n", LineFault::Form),
        (b"A 0000000000010 00\n", LineFault::Form),
        (b"A 000000000010 0\n", LineFault::Form),
        (b"A 000000000010 \n", LineFault::Form),
        (b"A 000000000010\n", LineFault::Form),
        (b"A 00000000001g 00\n", LineFault::Form),
        (b"A 000000000010 00 00\n", LineFault::Form),
        (b"A 000000000 010 00\n", LineFault::Form),
        (b"AA 000000000010 00\n", LineFault::Form),
        (b"A\x0b000000000010 00\n", LineFault::Form),
        (b"A 000000000010 0\x000\n", LineFault::Form),
        (b"G 000000000011 00\n", LineFault::Form),
        (b"G 000000000011\r\r\n", LineFault::Form),
        (b"G 000000000011\r \n", LineFault::Form),
        (b"G\r000000000011\n", LineFault::Form),
        (b"\r\r\n", LineFault::Form),
        (b"G\n", LineFault::Form),
        (b"I 00000000001\n", LineFault::Form),
        (b"R 000000000001\n", LineFault::Form),
        (b"r 000000000001 180ac0000004290f120000\n", LineFault::Form),
        (
            b"A 000000000010 0864c000000d20031900000000000000000010aabb\n",
            LineFault::Packet(long),
        ),
        (
            b"A 000000000010 0864c000000d20031900000000000000000010\n",
            LineFault::Packet(short),
        ),
        (
            b"A 000000000010 2864c000000d20031900000000000000000010aa\n",
            LineFault::Packet(version),
        ),
        (b"A 000000000010 00", LineFault::Packet(few)),
        (b"A 000000000010\t 0F \r\n", LineFault::Packet(few)),
        (b"R 000000000001 0F\r", LineFault::Packet(few)),
    ];
    for (text, why) in rows {
        let mut source = Pieces {
            text,
            most: 4096,
            takes: 0,
        };
        let mut lines = Lines::new(rt.alloc(), 1000)?;
        assert!(rt; lines.is_live());
        let end = end_of(&mut lines, &mut source);
        assert_eq!(rt; end, Some(LineEnd::Bad { line: 1, why }), "at {text:?}");
        assert!(rt; !lines.is_live());
    }
    Ok(())
}

#[test]
fn a_packet_of_4097_octets_is_too_large(rt: HostRuntime) -> Result<(), Fail> {
    let mut text = vec![in rt.alloc(); b'0'; 8210]?;
    text[..27].copy_from_slice(b"A 000000000010 0864c0000ffa");
    text[8209] = b'\n';
    let mut source = Pieces {
        takes: 0,
        text: &text,
        most: 4096,
    };
    let mut lines = Lines::new(rt.alloc(), 8210)?;
    assert!(rt; lines.is_live());
    let why = LineFault::Packet(PacketFault::TooLarge { need: 4097 });
    assert_eq!(rt;
        end_of(&mut lines, &mut source),
        Some(LineEnd::Bad { line: 1, why })
    );
    Ok(())
}

#[test]
fn a_line_that_ends_past_the_limit_is_bad(rt: HostRuntime) -> Result<(), Fail> {
    // the text, its limit, and the fault of its second line where it has one
    let rows: [(&[u8], u64, Option<LineFault>); 9] = [
        (
            b"G 000000000011\nG 000000000011\n",
            29,
            Some(LineFault::TextLimit),
        ),
        (b"G 000000000011\nG 000000000011\n", 30, None),
        (b"G 000000000011\nG 000000000011", 29, None),
        (
            b"G 000000000011\nG 000000000011",
            28,
            Some(LineFault::TextLimit),
        ),
        (
            b"G 000000000011\nG 000000000011\r\n",
            30,
            Some(LineFault::TextLimit),
        ),
        (
            b"G 000000000011\n# 345678901234\n",
            29,
            Some(LineFault::TextLimit),
        ),
        (b"G 000000000011\n\n", 15, Some(LineFault::TextLimit)),
        (b"G 000000000011\n\n", 16, None),
        (
            b"G 000000000011\nno form at all\n",
            29,
            Some(LineFault::TextLimit),
        ),
    ];
    for (text, limit, why) in rows {
        for most in [1, 4096] {
            let mut source = Pieces {
                text,
                most,
                takes: 0,
            };
            let mut lines = Lines::new(rt.alloc(), limit)?;
            assert!(rt; lines.is_live());
            assert!(rt;
                matches!(
                    lines.next_line(&mut source),
                    Ok(Some(Command::Grant { moment: 17 }))
                )
            );
            assert!(rt; lines.is_live());
            assert_eq!(rt;
                end_of(&mut lines, &mut source),
                bad_at_two(why),
                "at {text:?} with {limit}"
            );
        }
    }
    Ok(())
}

fn bad_at_two(why: Option<LineFault>) -> Option<LineEnd> {
    match why {
        Some(why) => Some(LineEnd::Bad { line: 2, why }),
        None => None,
    }
}

// Reads lines of so many octets, the last with an LF or without, and answers how the text ended.
fn end_of_long(
    alloc: Global,
    front: &[u8],
    fill: u8,
    count: usize,
    ended: bool,
    limit: u64,
) -> Result<Option<LineEnd>, Fail>
    requires { limit < 2 ^ 63 }
{
    let mut text = vec![in alloc; fill; count]?;
    let most = front.len().min(count);
    text[..most].copy_from_slice(&front[..most]);
    if ended {
        text.push(b'\n')?;
    }
    let mut source = Pieces {
        text: &text,
        most: 60_000,
        takes: 0,
    };
    let mut lines = Lines::new(alloc, limit)?;
    if !lines.is_live() {
        return Ok(None);
    }
    Ok(end_of(&mut lines, &mut source))
}

#[test]
fn a_line_of_131_201_octets_is_too_long(rt: HostRuntime) -> Result<(), Fail> {
    let long = LineFault::LongLine;
    let cut = LineFault::TextLimit;
    // what the line begins with and is filled with, its octets, the limit of the text, and its fault
    let rows: [(&[u8], u8, usize, u64, Option<LineFault>); 10] = [
        (b"", b'x', 131_200, 1_000_000, Some(LineFault::Form)),
        (b"", b'x', 131_201, 1_000_000, Some(long)),
        (b"#", b' ', 131_200, 1_000_000, None),
        (b"#", b' ', 131_201, 1_000_000, Some(long)),
        (b"", b' ', 131_200, 1_000_000, None),
        (b"", b' ', 131_201, 1_000_000, Some(long)),
        (b"", b'\t', 300_000, 1_000_000, Some(long)),
        (b"", b'x', 131_201, 131_200, Some(cut)),
        (b"", b'x', 131_201, 131_201, Some(long)),
        (b"", b'x', 300_000, 131_201, Some(long)),
    ];
    for (front, fill, count, limit, why) in rows {
        let end = match why {
            Some(why) => Some(LineEnd::Bad { line: 1, why }),
            None => None,
        };
        for ended in [true, false] {
            assert_eq!(rt;
                end_of_long(rt.alloc(), front, fill, count, ended, limit)?,
                end,
                "{count} octets, {ended}"
            );
        }
    }
    Ok(())
}

#[test]
fn lines_that_say_nothing_are_passed(rt: HostRuntime) -> Result<(), Fail> {
    let text =
        b"# pass 1\r\n\n \t \r\n\tA \t00000000ABCD  0864C000000D20031900000000000000000010AA \r\n  # G 1\n\r\nI 000000000012\nG 000000000013\r";
    for most in [1, 5, 4096] {
        let mut source = Pieces {
            text,
            most,
            takes: 0,
        };
        let mut lines = Lines::new(rt.alloc(), text.len() as u64)?;
        assert!(rt; lines.is_live());
        match lines.next_line(&mut source) {
            Ok(Some(Command::Arrival { moment, packet })) => {
                assert_eq!(rt; moment, 0xabcd, "pieces of {most}");
                assert!(rt; packet.bytes() == PACKET.as_slice(), "pieces of {most}");
            }
            _ => assert!(rt; false, "no arrival in pieces of {most}"),
        }
        assert!(rt; lines.is_live());
        assert!(rt;
            matches!(
                lines.next_line(&mut source),
                Ok(Some(Command::Idle { moment: 18 }))
            )
        );
        assert!(rt; lines.is_live());
        assert!(rt;
            matches!(
                lines.next_line(&mut source),
                Ok(Some(Command::Grant { moment: 19 }))
            )
        );
        let takes = source.takes;
        assert!(rt; lines.is_live());
        assert!(rt; matches!(lines.next_line(&mut source), Ok(None)));
        assert!(rt; lines.is_live());
        assert!(rt; matches!(lines.next_line(&mut source), Ok(None)));
        assert_eq!(rt; source.takes, takes, "asked again behind the end");
    }
    Ok(())
}

#[test]
fn a_line_without_its_end_is_counted_with_those_that_say_nothing(
    rt: HostRuntime,
) -> Result<(), Fail> {
    let text = b"# pass 1\n\n  a 000000000010 00";
    for most in 1..text.len() {
        let mut source = Pieces {
            text,
            most,
            takes: 0,
        };
        let mut lines = Lines::new(rt.alloc(), 1000)?;
        assert!(rt; lines.is_live());
        let why = LineFault::Form;
        assert_eq!(rt;
            end_of(&mut lines, &mut source),
            Some(LineEnd::Bad { line: 3, why })
        );
    }
    Ok(())
}

#[test]
fn a_line_goes_out_as_a_digit_and_lower_case(rt: HostRuntime) {
    let mut out = [b'.'; 8195];
    assert_eq!(rt; write_line(1, &PACKET, &mut out), 43);
    assert!(rt; out.starts_with(b"1 0864c000000d20031900000000000000000010aa\n.."));
}

#[test]
fn faults_have_texts(rt: HostRuntime) {
    let said: InlineText<64> = InlineText::of(LineFault::Form);
    assert_eq!(rt; said.as_str(), "no known form");
    let said: InlineText<64> = InlineText::of(LineFault::TextLimit);
    assert_eq!(rt; said.as_str(), "text too long");
    let said: InlineText<64> = InlineText::of(LineFault::LongLine);
    assert_eq!(rt; said.as_str(), "line too long");
    let long = PacketFault::Long { have: 21, need: 20 };
    let said: InlineText<64> = InlineText::of(LineFault::Packet(long));
    assert_eq!(rt; said.as_str(), "packet long: have 21 need 20");
}

// Reads a text of so many grants, and answers how many came and how often the source was asked.
fn read_grants(alloc: Global, count: usize) -> Result<(usize, u64), Fail> {
    let text = b"G 000000000011\n".repeat(alloc, count)?;
    let mut source = Pieces {
        text: &text,
        most: usize::MAX,
        takes: 0,
    };
    let mut lines = Lines::new(alloc, i64::MAX as u64)?;
    for read in 0..count {
        if !lines.is_live() || !matches!(lines.next_line(&mut source), Ok(Some(_))) {
            return Ok((read, source.takes));
        }
    }
    Ok((count, source.takes))
}

#[test]
fn a_reader_asks_with_the_room_that_it_has(rt: HostRuntime) -> Result<(), Fail> {
    // 300,000 octets, of which each take has room for 131,072 at least but one that fills the buffer
    let (grants, takes) = read_grants(rt.alloc(), 20_000)?;
    assert_eq!(rt; grants, 20_000);
    assert!(rt; takes <= 4, "{takes} takes");
    Ok(())
}
