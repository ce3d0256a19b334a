// Each call of each kind fails once, at each place, until a session comes to its end without it.

use super::commands::lines_of;
use super::many_tables::five_image;
use super::tables::full_image;
use super::trial::{Trial, check_stop, trial_of};
use super::{board_of, session};
use board::{CallKind, Torn};
use station::Ending;
use std::alloc::Global;
use std::process::Abort;
use std::test::Fail;

/// Commands of each kind.
const SHORT: &[u8] = b"xaAgfaguAdaega2ygq";

/// More calls than a session makes of a kind.
const LIMIT: u64 = 2000;

fn ending_by(kind: CallKind) -> Ending {
    match kind {
        CallKind::Send => Ending::LinkFault,
        _ => Ending::FlashFault,
    }
}

// A session in which one call fails. Whether it came to its end all the same.
fn fails_at(
    rt: &impl Abort,
    alloc: Global,
    trial: &Trial,
    kind: CallKind,
    number: u64,
) -> Result<bool, Fail> {
    let mut board = board_of(rt, alloc, trial.image.clone()?)?;
    board.plan(kind, number)?;
    let ending = session(alloc, &mut board, "run", &trial.text)?;
    if ending == Ending::Done {
        assert!(rt; board.sent() == trial.sent.as_slice(), "{kind:?} {number}");
        return Ok(true);
    }
    assert_eq!(rt; ending, ending_by(kind), "{kind:?} {number}");
    assert!(rt; trial.sent.starts_with(board.sent()), "{kind:?} {number}");
    for torn in [Torn::Done, Torn::Undone, Torn::Fill(0x5a)] {
        check_stop(rt, alloc, trial, &board, board.moments(), torn)?;
    }
    Ok(false)
}

// Each call of a kind fails once, as often as a session makes such calls.
fn fail_each(rt: &impl Abort, alloc: Global, image: Vec<u8>, kind: CallKind) -> Result<(), Fail> {
    let trial = trial_of(rt, alloc, image, &lines_of(alloc, SHORT)?)?;
    let mut whole = board_of(rt, alloc, trial.image.clone()?)?;
    let ending = session(alloc, &mut whole, "run", &trial.text)?;
    assert_eq!(rt; ending, Ending::Done);
    for number in 1..LIMIT {
        let is_done = fails_at(rt, alloc, &trial, kind, number)?;
        assert_eq!(rt; is_done, number > whole.count(kind), "{kind:?} {number}");
        if is_done {
            return Ok(());
        }
    }
    panic!(rt; "more calls than the limit: {kind:?}");
}

#[test]
fn each_program_fails_once(rt: HostRuntime) -> Result<(), Fail> {
    let alloc = rt.alloc();
    fail_each(&rt, alloc, full_image(alloc)?, CallKind::Program)
}

#[test]
fn each_erase_barrier_and_send_fails_once(rt: HostRuntime) -> Result<(), Fail> {
    let alloc = rt.alloc();
    for kind in [CallKind::Erase, CallKind::Barrier, CallKind::Send] {
        fail_each(&rt, alloc, full_image(alloc)?, kind)?;
    }
    Ok(())
}

#[test]
fn each_read_fails_once(rt: HostRuntime) -> Result<(), Fail> {
    let alloc = rt.alloc();
    fail_each(&rt, alloc, full_image(alloc)?, CallKind::Read)
}

// The session begins with a repair of split roots.
#[test]
fn each_call_on_split_roots_fails_once(rt: HostRuntime) -> Result<(), Fail> {
    let alloc = rt.alloc();
    for kind in [CallKind::Program, CallKind::Erase, CallKind::Barrier] {
        fail_each(&rt, alloc, five_image(alloc)?, kind)?;
    }
    Ok(())
}
