// What no clause says: that all that was sent is printed where the writer takes it, and which files are
// devices.

use crate::image::open_image;
use crate::outcome::print_sent;
use crate::report::Report;
use crate::session::{file_session, session};
use crate::words::{Call, call_of};
use board::{Board, MemBoard};
use image_board::FileBoard;
use station::Ending;
use std::alloc::{AllocError, Global};
use std::fs::{self, File};
use std::io::Cursor;
use std::test::Fail;

const TEXT: &[u8] = b"A 000000000010 0864c000000d20031900000000000000000010aa\nG 000000000011\n";

const TEXT_STORED: &[u8] = b"A 000000000010 0864c000000d20031900000000000000000010aa\n";

const TEXT_GRANTED: &[u8] = b"G 000000000011\n";

const SENT: &[u8] = b"1 0864c000000d20031900000000000000000010aa\n";

// The words of a session of one word.
fn only(alloc: Global, word: &str) -> Result<Vec<String>, AllocError> {
    let mut words = Vec::new(alloc);
    words.push(String::from_str(alloc, word)?)?;
    Ok(words)
}

#[test]
fn all_that_was_sent_is_printed_where_there_is_room(rt: HostRuntime) -> Result<(), Fail> {
    let mut board = MemBoard::new(rt.alloc(), 16)?;
    board.send(b"one, ")?;
    board.send(b"two")?;
    let mut output = Vec::new(rt.alloc());
    assert!(rt; print_sent(&mut output, &board));
    assert_eq!(rt; output.as_slice(), b"one, two".as_slice());
    let mut room = [0; 7];
    assert!(rt; !print_sent(&mut Cursor::new(room.as_mut_slice()), &board));
    Ok(())
}

#[test]
fn a_session_prints_what_its_text_asks_for(rt: HostRuntime) -> Result<(), Fail> {
    let words = only(rt.alloc(), "fresh")?;
    let mut output = Vec::new(rt.alloc());
    let ending = session(rt.alloc(), &words, 16, TEXT, &mut output);
    assert_eq!(rt; ending, Ending::Done);
    assert_eq!(rt; output.as_slice(), SENT);
    Ok(())
}

#[test]
fn a_new_device_in_memory_holds_no_table(rt: HostRuntime) -> Result<(), Fail> {
    for word in ["run", "list"] {
        let words = only(rt.alloc(), word)?;
        let mut output = Vec::new(rt.alloc());
        let ending = session(rt.alloc(), &words, 16, TEXT, &mut output);
        assert_eq!(rt; ending, Ending::NotHeld, "{word}");
        assert!(rt; output.is_empty(), "{word}");
    }
    Ok(())
}

#[test]
fn a_session_in_a_file_writes_what_its_text_asks_for(rt: HostRuntime) -> Result<(), Fail> {
    let path = "pusstore_test_output";
    let device = "pusstore_test_device";
    let words = only(rt.alloc(), "fresh")?;
    let output = File::create(&rt, path)?;
    let image = open_image(&rt, device, true)?;
    let mut board = FileBoard::new(image.file, image.blocks, output);
    let ending = file_session(rt.alloc(), &words, TEXT, &mut board);
    assert_eq!(rt; ending, Ending::Done);
    assert_eq!(rt; fs::read(&rt, path)?.as_slice(), SENT);
    fs::remove_file(&rt, path)?;
    fs::remove_file(&rt, device)?;
    Ok(())
}

#[test]
fn a_session_in_a_file_that_takes_no_writes_sends_nothing(rt: HostRuntime) -> Result<(), Fail> {
    let path = "pusstore_test_nothing";
    let words = only(rt.alloc(), "fresh")?;
    let output = File::create(&rt, path)?;
    let mut board = FileBoard::new(File::open(&rt, "/dev/null")?, 16, output);
    let ending = file_session(rt.alloc(), &words, TEXT, &mut board);
    assert_eq!(rt; ending, Ending::FlashFault);
    assert_eq!(rt; fs::read(&rt, path)?.as_slice(), b"".as_slice());
    fs::remove_file(&rt, path)?;
    Ok(())
}

#[test]
fn a_file_that_holds_no_table_is_left_as_it_was(rt: HostRuntime) -> Result<(), Fail> {
    let path = "pusstore_test_unheld_output";
    let device = "pusstore_test_unheld";
    let mut board = {
        let output = File::create(&rt, path)?;
        let image = open_image(&rt, device, true)?;
        FileBoard::new(image.file, image.blocks, output)
    };
    let before = fs::read(&rt, device)?;
    for word in ["run", "list"] {
        let words = only(rt.alloc(), word)?;
        let ending = file_session(rt.alloc(), &words, TEXT, &mut board);
        assert_eq!(rt; ending, Ending::NotHeld, "{word}");
    }
    assert!(rt; fs::read(&rt, device)? == before);
    assert_eq!(rt; fs::read(&rt, path)?.as_slice(), b"".as_slice());
    fs::remove_file(&rt, path)?;
    fs::remove_file(&rt, device)?;
    Ok(())
}

#[test]
fn a_table_outlives_its_session(rt: HostRuntime) -> Result<(), Fail> {
    let path = "pusstore_test_outliving_output";
    let device = "pusstore_test_outliving";
    let rows: [(&str, &[u8], &[u8]); 3] = [
        ("fresh", TEXT_STORED, b""),
        ("run", TEXT_GRANTED, SENT),
        ("run", TEXT_GRANTED, b""),
    ];
    for (word, text, sent) in rows {
        let words = only(rt.alloc(), word)?;
        let output = File::create(&rt, path)?;
        let image = open_image(&rt, device, true)?;
        let mut board = FileBoard::new(image.file, image.blocks, output);
        let ending = file_session(rt.alloc(), &words, text, &mut board);
        assert_eq!(rt; ending, Ending::Done, "{word}");
        assert_eq!(rt; fs::read(&rt, path)?.as_slice(), sent, "{word}");
    }
    fs::remove_file(&rt, path)?;
    fs::remove_file(&rt, device)?;
    Ok(())
}

#[test]
fn a_file_is_made_where_it_may_be_and_used_by_one_at_a_time(rt: HostRuntime) -> Result<(), Fail> {
    let path = "pusstore_test_image";
    assert!(rt; open_image(&rt, path, false).is_err());
    assert!(rt; !fs::exists(&rt, path)?);
    let image = open_image(&rt, path, true)?;
    assert_eq!(rt; image.blocks, 64);
    assert!(rt; open_image(&rt, path, true).is_err());
    drop(image);
    assert_eq!(rt; open_image(&rt, path, false)?.blocks, 64);
    fs::remove_file(&rt, path)?;
    Ok(())
}

#[test]
fn what_is_said_of_a_file_names_it(rt: HostRuntime) -> Result<(), Fail> {
    let report = Report::File(String::from_str(rt.alloc(), "a path")?);
    let said = format!(in rt.alloc(); "{report}")?;
    assert_eq!(rt; said.as_str(), "pusstore: cannot use a path");
    assert!(rt; !report.is_done());
    Ok(())
}

#[test]
fn what_is_said_of_an_ending_names_it(rt: HostRuntime) -> Result<(), Fail> {
    let mismatch = Ending::Mismatch {
        block: 9,
        page: 255,
        kept: 4_294_967_295,
        found: 0,
    };
    let rows = [
        (
            Ending::BadWords,
            "pusstore: words: use run, fresh, format, list or generate NUMBER COUNT",
        ),
        (Ending::NotHeld, "pusstore: the flash holds no table"),
        (Ending::FlashFault, "pusstore: flash fault"),
        (
            mismatch,
            "pusstore: block 9 page 255: kept 4294967295 found 0",
        ),
        (Ending::NoMemory, "pusstore: no memory"),
    ];
    for (ending, text) in rows {
        let said = format!(in rt.alloc(); "{}", Report::Session(ending))?;
        assert_eq!(rt; said.as_str(), text);
    }
    Ok(())
}

// What the program is called for with these words behind its name: how many words, a text of so many octets, or the
// refusal.
fn called(alloc: Global, row: &[&str]) -> Result<Result<(usize, usize), Report>, AllocError> {
    let mut all = Vec::new(alloc);
    all.push(String::from_str(alloc, "pusstore")?)?;
    for word in row {
        all.push(String::from_str(alloc, word)?)?;
    }
    Ok(match call_of(alloc, &all) {
        Ok(Call::Words(words)) => Ok((words.len(), 0)),
        Ok(Call::Print(text)) => Ok((0, text.len())),
        Err(report) => Err(report),
    })
}

#[test]
fn words_are_values_behind_the_first_two_dashes(rt: HostRuntime) -> Result<(), Fail> {
    let rows: [(&[&str], usize); 7] = [
        (&[], 0),
        (&[""], 1),
        (&["-"], 1),
        (&["mem", "16", "fresh"], 3),
        (&["help", "version"], 2),
        (&["file", "--", "-path", "list"], 3),
        (&["--", "--", "-x"], 2),
    ];
    for (row, count) in rows {
        assert!(rt;
            matches!(called(rt.alloc(), row)?, Ok((words, 0)) if words == count),
            "{row:?}"
        );
    }
    let refused: [&[&str]; 5] = [
        &["-path"],
        &["mem", "-1"],
        &["file", "-path", "fresh"],
        &["--generate=3"],
        &["mem", "16", "--fresh"],
    ];
    for row in refused {
        assert!(rt;
            matches!(called(rt.alloc(), row)?, Err(Report::Device)),
            "{row:?}"
        );
    }
    let printed: [&[&str]; 4] = [&["--help"], &["-h"], &["--version"], &["mem", "16", "-V"]];
    for row in printed {
        assert!(rt;
            matches!(called(rt.alloc(), row)?, Ok((0, octets)) if octets > 10),
            "{row:?}"
        );
    }
    Ok(())
}
