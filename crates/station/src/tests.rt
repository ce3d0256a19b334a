// Worked sessions: what is sent, and how they end.

use super::*;
use board::{Board, CallKind, MemBoard, MemSource, Source};
use session_text::LineFault;
use space_packet::PacketFault;
use std::alloc::{AllocError, Global};
use std::process::Abort;
use std::test::Fail;
use traffic_gen::Traffic;

/// A telemetry packet of APID 100, 20 octets long, up to its last octet.
const FRONT: &str = "0864c000000d20031900000000000000000010";

// The words of a session.
fn words(alloc: Global, all: &[&str]) -> Result<Vec<String>, AllocError> {
    let mut words = Vec::new(alloc);
    for word in all {
        words.push(String::from_str(alloc, word)?)?;
    }
    Ok(words)
}

// A blank image of 16 blocks.
fn blank(alloc: Global) -> Result<Vec<u8>, AllocError> {
    vec![in alloc; 255u8; 65_536 * 16]
}

// The image that a board leaves.
fn image_of(alloc: Global, board: &MemBoard) -> Result<Vec<u8>, AllocError> {
    let mut image = Vec::new(alloc);
    for block in 0..16u32 {
        for page in 0..256u32 {
            image.extend_from_slice(board.page(block, page))?;
        }
    }
    Ok(image)
}

// How a session of these words and this text over an image of 16 blocks ends, and what it leaves.
fn rehearsed_words(
    rt: &impl Abort,
    alloc: Global,
    all: &[&str],
    image: Vec<u8>,
    text: &str,
) -> Result<Rehearsal, Fail> {
    assert!(rt; image.len() == 1_048_576, "an image of 16 blocks");
    let bytes = Vec::from_slice(alloc, text.as_bytes())?;
    Ok(rehearse(alloc, &words(alloc, all)?, image, bytes)?)
}

// How a session of this word ends so, and what it leaves.
fn rehearsed(
    rt: &impl Abort,
    alloc: Global,
    word: &str,
    image: Vec<u8>,
    text: &str,
) -> Result<Rehearsal, Fail> {
    rehearsed_words(rt, alloc, &[word], image, text)
}

#[test]
fn sessions_end_as_their_texts_say(rt: HostRuntime) -> Result<(), Fail> {
    let alloc = rt.alloc();
    let bad = |line, why| Ending::BadLine { line, why };
    let packet = |line, why| bad(line, LineFault::Packet(why));
    let rows = [
        ("", Ending::Done, ""),
        (
            "A 000000000010 Paa\nG 000000000011\n",
            Ending::Done,
            "1 Paa\n",
        ),
        (
            "A 000000000010 Paa\nG 000000000011\nG 000000000012\n",
            Ending::Done,
            "1 Paa\n",
        ),
        ("G 000000000011\nA 000000000010 Paa\n", Ending::Done, ""),
        (
            "A 000000000040 07ffc000000000\nG 000000000041\n",
            Ending::Done,
            "",
        ),
        (
            "A 000000000010 P01\nA 00000000000f P02\nG 0123456789aB\nG ffffffffffff\n",
            Ending::Done,
            "1 P01\n1 P02\n",
        ),
        (
            "A 000000000010 Paabb\n",
            packet(1, PacketFault::Long { have: 21, need: 20 }),
            "",
        ),
        (
            "A 000000000010 P\n",
            packet(1, PacketFault::Short { have: 19, need: 20 }),
            "",
        ),
        (
            "A 000000000010 Paa\nG 000000000011\na 000000000010 00\nG 000000000012\n",
            bad(3, LineFault::Form),
            "1 Paa\n",
        ),
        (
            "A 000000000010 Paa\nG 000000000011",
            Ending::Done,
            "1 Paa\n",
        ),
        (
            "# pass 1\r\n\r\n A\t000000000010  Paa\nI 000000000011\nG 000000000012\r",
            Ending::Done,
            "1 Paa\n",
        ),
        (
            "# pass 1\n\n  a 000000000010 00",
            bad(3, LineFault::Form),
            "",
        ),
    ];
    for (text, ending, sent) in rows {
        let text = text.replace(alloc, "P", FRONT)?;
        let sent = sent.replace(alloc, "P", FRONT)?;
        let rehearsal = rehearsed(&rt, alloc, "fresh", blank(alloc)?, text.as_str())?;
        assert_eq!(rt; rehearsal.ending, ending, "{text}");
        assert_eq!(rt; rehearsal.board.sent(), sent.as_bytes(), "{text}");
    }
    Ok(())
}

#[test]
fn a_later_session_retrieves_what_an_earlier_one_stored(rt: HostRuntime) -> Result<(), Fail> {
    let alloc = rt.alloc();
    let stored = format!(in alloc; "A 000000000010 {FRONT}aa\nA 000000000011 {FRONT}bb\n")?;
    let first = rehearsed(&rt, alloc, "fresh", blank(alloc)?, stored.as_str())?;
    assert_eq!(rt; first.ending, Ending::Done);
    assert_eq!(rt; first.board.sent().len(), 0);
    let image = image_of(alloc, &first.board)?;
    let second = rehearsed(&rt, alloc, "run", image, "G 000000000012\n")?;
    assert_eq!(rt; second.ending, Ending::Done);
    let line = format!(in alloc; "1 {FRONT}aa\n")?;
    assert_eq!(rt; second.board.sent(), line.as_bytes());
    let image = image_of(alloc, &second.board)?;
    let third = rehearsed(&rt, alloc, "run", image, "G 000000000013\nG 000000000014\n")?;
    assert_eq!(rt; third.ending, Ending::Done);
    let line = format!(in alloc; "1 {FRONT}bb\n")?;
    assert_eq!(rt; third.board.sent(), line.as_bytes());
    Ok(())
}

#[test]
fn a_blank_device_is_not_run_and_not_listed(rt: HostRuntime) -> Result<(), Fail> {
    let alloc = rt.alloc();
    for word in ["run", "list"] {
        let rehearsal = rehearsed(&rt, alloc, word, blank(alloc)?, "G 000000000011\n")?;
        assert_eq!(rt; rehearsal.ending, Ending::NotHeld);
        assert_eq!(rt; rehearsal.board.count(CallKind::Program), 0);
        assert_eq!(rt; rehearsal.board.count(CallKind::Send), 0);
    }
    Ok(())
}

#[test]
fn a_formatted_device_is_run_and_listed(rt: HostRuntime) -> Result<(), Fail> {
    let alloc = rt.alloc();
    let rehearsal = rehearsed(&rt, alloc, "format", blank(alloc)?, "no command")?;
    assert_eq!(rt; rehearsal.ending, Ending::Done);
    assert_eq!(rt; rehearsal.board.sent().len(), 0);
    let image = image_of(alloc, &rehearsal.board)?;
    let rehearsal = rehearsed(&rt, alloc, "run", image.clone()?, "G 000000000011\n")?;
    assert_eq!(rt; rehearsal.ending, Ending::Done);
    assert_eq!(rt; rehearsal.board.sent().len(), 0);
    let rehearsal = rehearsed(&rt, alloc, "list", image, "no command")?;
    assert_eq!(rt; rehearsal.ending, Ending::Done);
    assert!(rt;
        rehearsal
            .board
            .sent()
            .starts_with(b"now 000000000000 reports 0\n")
    );
    Ok(())
}

#[test]
fn a_call_of_the_flash_that_fails_ends_the_session(rt: HostRuntime) -> Result<(), Fail> {
    let alloc = rt.alloc();
    let fresh = words(alloc, &["fresh"])?;
    for kind in [
        CallKind::Program,
        CallKind::Erase,
        CallKind::Barrier,
        CallKind::Read,
    ] {
        let mut board = MemBoard::new(alloc, 16)?;
        board.plan(kind, 1)?;
        let mut source = MemSource::new(Vec::new(alloc));
        let ending = station(alloc, &fresh, &mut source, &mut board);
        assert_eq!(rt; ending, Ending::FlashFault, "{kind:?}");
        assert_eq!(rt; board.sent().len(), 0, "{kind:?}");
    }
    Ok(())
}

#[test]
fn a_take_that_fails_ends_the_session(rt: HostRuntime) -> Result<(), Fail> {
    let alloc = rt.alloc();
    let mut board = MemBoard::new(alloc, 16)?;
    let mut source = MemSource::new(Vec::from_slice(alloc, b"G 000000000011\n")?);
    source.plan(2);
    let ending = station(alloc, &words(alloc, &["fresh"])?, &mut source, &mut board);
    assert_eq!(rt; ending, Ending::SourceFault);
    Ok(())
}

#[test]
fn other_words_are_refused(rt: HostRuntime) -> Result<(), Fail> {
    let alloc = rt.alloc();
    let rows = [
        [].as_slice(),
        &["generate"],
        &["generate", "1"],
        &["generate", "1", "0"],
        &["generate", "1", "100001"],
        &["generate", "18446744073709551616", "1"],
        &["generate", "+1", "1"],
        &["generate", "1", "-1"],
        &["generate", "", "1"],
        &["generate", "000000000000000000001", "1"],
        &["generate", "1", "1", "1"],
        &["Generate", "1", "1"],
        &["run", "run"],
        &["format", "fresh"],
        &["list "],
        &["Fresh"],
        &[""],
    ];
    for row in rows {
        let rehearsal = rehearsed_words(&rt, alloc, row, blank(alloc)?, "G 000000000011\n")?;
        assert_eq!(rt; rehearsal.ending, Ending::BadWords);
    }
    Ok(())
}

// The line that sums up what a session has sent for so many commands. Packets that are forwarded are
// telemetry of APID 103.
fn summary_of(alloc: Global, commands: u32, sent: &[u8]) -> Result<String, AllocError> {
    let mut forwarded = 0u32;
    let mut retrieved = 0u32;
    let mut lines = 0u32;
    for line in sent.split(|octet| *octet == b'\n') {
        if line.is_empty() {
            continue;
        }
        lines = lines.saturating_add(1);
        if line.starts_with(b"0 0867") {
            forwarded = forwarded.saturating_add(1);
        } else if !line.starts_with(b"0") {
            retrieved = retrieved.saturating_add(1);
        }
    }
    let replies = lines.saturating_sub(forwarded).saturating_sub(retrieved);
    let octets = sent.len();
    format!(in alloc;
        "commands {commands} forwarded {forwarded} replies {replies} retrieved {retrieved} octets {octets}\n"
    )
}

#[test]
fn generated_traffic_is_summed_up(rt: HostRuntime) -> Result<(), Fail> {
    let alloc = rt.alloc();
    let mut board = MemBoard::new(alloc, 16)?;
    let mut traffic = Traffic::new(7, 40);
    let ending = station(alloc, &words(alloc, &["fresh"])?, &mut traffic, &mut board);
    assert_eq!(rt; ending, Ending::Done);
    let expected = summary_of(alloc, 97, board.sent())?;
    let mut silent = MemBoard::new(alloc, 16)?;
    let mut source = MemSource::new(Vec::from_slice(alloc, b"not read")?);
    let asked = words(alloc, &["generate", "7", "40"])?;
    let ending = station(alloc, &asked, &mut source, &mut silent);
    assert_eq!(rt; ending, Ending::Done);
    assert_eq!(rt; silent.sent(), expected.as_bytes());
    assert_eq!(rt; silent.count(CallKind::Send), 1);
    let mut left = [0u8; 16];
    assert_eq!(rt; source.take(&mut left).ok(), Some(8));
    for page in 0..256u32 {
        assert!(rt;
            silent.page(7, page) == board.page(7, page),
            "page {page} of the first packets"
        );
    }
    Ok(())
}

#[test]
fn the_line_of_traffic_is_not_sent_where_a_call_fails(rt: HostRuntime) -> Result<(), Fail> {
    let alloc = rt.alloc();
    let asked = words(alloc, &["generate", "7", "4"])?;
    let rows = [
        (CallKind::Send, 1, Ending::LinkFault),
        (CallKind::Program, 3, Ending::FlashFault),
        (CallKind::Read, 4, Ending::FlashFault),
        (CallKind::Barrier, 12, Ending::FlashFault),
    ];
    for (kind, number, wanted) in rows {
        let mut board = MemBoard::new(alloc, 16)?;
        board.plan(kind, number)?;
        let mut source = MemSource::new(Vec::new(alloc));
        let ending = station(alloc, &asked, &mut source, &mut board);
        assert_eq!(rt; ending, wanted);
        assert!(rt; board.sent().is_empty());
    }
    Ok(())
}

#[test]
fn endings_have_their_statuses(rt: HostRuntime) {
    let why = LineFault::Form;
    let mismatch = Ending::Mismatch {
        block: 7,
        page: 0,
        kept: 1,
        found: 2,
    };
    let rows = [
        (Ending::Done, 0),
        (Ending::BadWords, 1),
        (Ending::BadLine { line: 1, why }, 2),
        (Ending::NotHeld, 3),
        (Ending::FlashFault, 4),
        (Ending::LinkFault, 5),
        (Ending::SourceFault, 6),
        (mismatch, 7),
        (Ending::NoMemory, 8),
    ];
    for (ending, status) in rows {
        assert_eq!(rt; ending.status(), status);
    }
}
