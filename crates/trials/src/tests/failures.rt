// Each take fails once, and each send breaks once within its line.
ghost use Rattle.std.specs.Prelude.{◌<◌};

use super::worked::{sent_half, sent_within, text_of, turns};
use super::{MOSTS, fresh, session};
use crate::half_board::HalfBoard;
use crate::short_source::ShortSource;
use board::{Board, Failed};
use station::{Ending, Rehearsal, rehearse, station};
use std::alloc::{AllocError, Global};
use std::process::Abort;
use std::test::Fail;

// How the session ends, and what it sends, where the link breaks within this send.
fn send_breaks(
    alloc: Global,
    text: &[u8],
    most: usize,
    number: u64,
) -> Result<(Ending, Vec<u8>), AllocError>
    requires { 0 < most }
{
    let mut board = HalfBoard::new(alloc, 16)?;
    board.plan(number);
    let mut source = ShortSource::new(text.to_vec(alloc)?, most);
    let ending = station(alloc, &fresh(alloc)?, &mut source, &mut board);
    Ok((ending, board.sent().to_vec(alloc)?))
}

// A blank image of 16 blocks.
fn blank(alloc: Global) -> Result<Vec<u8>, AllocError> {
    vec![in alloc; 255u8; 65_536 * 16]
}

// How a session of this text over an image of 16 blocks ends, which is formatted first.
fn rehearsed(
    rt: &impl Abort,
    alloc: Global,
    image: Vec<u8>,
    text: Vec<u8>,
) -> Result<Rehearsal, Fail> {
    assert!(rt; image.len() == 1_048_576, "an image of 16 blocks");
    Ok(rehearse(alloc, &fresh(alloc)?, image, text)?)
}

#[test]
fn short_takes_change_no_session(rt: HostRuntime) -> Result<(), Fail> {
    let alloc = rt.alloc();
    let turns = turns(alloc)?;
    let text = text_of(alloc, &turns)?;
    let whole = rehearsed(&rt, alloc, blank(alloc)?, text.to_vec(alloc)?)?;
    assert_eq!(rt; whole.ending, Ending::Done);
    assert!(rt; whole.board.sent() == sent_within(alloc, &turns, text.len())?.as_slice());
    for most in MOSTS {
        let (ending, sent) = session(alloc, &text, most, None)?;
        assert_eq!(rt; ending, Ending::Done, "takes of {most}");
        assert!(rt; sent.as_slice() == whole.board.sent(), "takes of {most}");
    }
    Ok(())
}

// The text comes in pieces, and behind the last one a take finds its end. Where a take fails, all
// whole lines in the pieces before it were carried out.
#[test]
fn a_failed_take_ends_behind_the_lines_taken(rt: HostRuntime) -> Result<(), Fail> {
    let alloc = rt.alloc();
    let turns = turns(alloc)?;
    let text = text_of(alloc, &turns)?;
    for most in [16, 4096] {
        let pieces = text.len().div_ceil(most);
        for before in 0..pieces + 1 {
            let (ending, sent) = session(alloc, &text, most, Some(before as u64 + 1))?;
            let taken = before.saturating_mul(most);
            assert_eq!(rt;
                ending,
                Ending::SourceFault,
                "behind {before} takes of {most}"
            );
            assert!(rt;
                sent == sent_within(alloc, &turns, taken)?,
                "behind {before} takes of {most}"
            );
        }
        let (ending, sent) = session(alloc, &text, most, Some(pieces as u64 + 2))?;
        assert_eq!(rt; ending, Ending::Done, "takes of {most}");
        assert!(rt;
            sent == sent_within(alloc, &turns, text.len())?,
            "takes of {most}"
        );
    }
    Ok(())
}

// The session sends four lines.
#[test]
fn a_link_that_breaks_has_sent_the_lines_before_and_half_a_line(
    rt: HostRuntime,
) -> Result<(), Fail> {
    let alloc = rt.alloc();
    let turns = turns(alloc)?;
    let text = text_of(alloc, &turns)?;
    for most in MOSTS {
        for number in 1..5 {
            let (ending, sent) = send_breaks(alloc, &text, most, number)?;
            assert_eq!(rt; ending, Ending::LinkFault, "send {number}, takes of {most}");
            assert!(rt;
                sent == sent_half(alloc, &turns, number)?,
                "send {number}, takes of {most}"
            );
        }
        let (ending, sent) = send_breaks(alloc, &text, most, 5)?;
        assert_eq!(rt; ending, Ending::Done, "takes of {most}");
        assert!(rt;
            sent == sent_within(alloc, &turns, text.len())?,
            "takes of {most}"
        );
    }
    Ok(())
}

fn send_all<B: Board>(board: &mut B, texts: &[&[u8]]) -> Result<(), Failed> {
    for text in texts {
        board.send(text)?;
    }
    Ok(())
}

#[test]
fn a_broken_send_sends_half_and_the_others_all(rt: HostRuntime) -> Result<(), Fail> {
    let mut board = HalfBoard::new(rt.alloc(), 512)?;
    board.plan(2);
    assert_eq!(rt; board.blocks(), 512);
    assert_eq!(rt;
        send_all(&mut board, &[b"one, ", b"three", b"four"]),
        Err(Failed)
    );
    assert_eq!(rt; board.sent(), b"one, th".as_slice());
    assert_eq!(rt; send_all(&mut board, &[b"", b"two"]), Ok(()));
    assert_eq!(rt; board.sent(), b"one, thtwo".as_slice());
    assert!(rt; !board.starved());
    Ok(())
}
