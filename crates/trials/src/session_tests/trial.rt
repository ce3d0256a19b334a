// Commands on an image, and what a power loss may leave of them.
//
// The session of a prefix of the commands makes the first steps of the session of all. So the listings
// that the prefixes leave say which table may stand at which step.

use super::{board_of, listing_on, session, stopped};
use board::{CallKind, MemBoard, Torn};
use station::Ending;
use std::alloc::Global;
use std::process::Abort;
use std::test::Fail;

/// A session of the first commands.
#[derive(Drop)]
pub(super) struct Prefix {
    /// the steps that it makes
    pub(super) moments: u64,
    pub(super) sends: u64,
    pub(super) erases: u64,
    /// the octets of its text, and of what it sends
    pub(super) text_length: usize,
    pub(super) sent_length: usize,
    /// the listing of the table that it leaves
    pub(super) listing: Vec<u8>,
}

/// An image, commands on it, and what they do.
#[derive(Drop)]
pub(super) struct Trial {
    pub(super) image: Vec<u8>,
    pub(super) text: Vec<u8>,
    /// one for each number of commands, from none to all
    pub(super) prefixes: Vec<Prefix>,
    /// the steps made before each send
    pub(super) before_sends: Vec<u64>,
    /// what a session of all commands sends
    pub(super) sent: Vec<u8>,
}

/// The device after a session of this text on an image, which has to end in Done.
pub(super) fn after_run(
    rt: &impl Abort,
    alloc: Global,
    image: &Vec<u8>,
    text: &[u8],
) -> Result<MemBoard, Fail> {
    let mut board = board_of(rt, alloc, image.clone()?)?;
    let ending = session(alloc, &mut board, "run", text)?;
    assert_eq!(rt; ending, Ending::Done);
    Ok(board)
}

fn prefix_of(rt: &impl Abort, alloc: Global, image: &Vec<u8>, text: &[u8]) -> Result<Prefix, Fail> {
    let board = after_run(rt, alloc, image, text)?;
    let moments = board.moments();
    let mut left = stopped(rt, alloc, &board, moments, Torn::Undone)?;
    Ok(Prefix {
        moments,
        sends: board.count(CallKind::Send),
        erases: board.count(CallKind::Erase),
        text_length: text.len(),
        sent_length: board.sent().len(),
        listing: listing_on(rt, alloc, &mut left)?,
    })
}

// How many steps a session makes before the send of this number, counted from 1, which fails.
fn steps_before(
    rt: &impl Abort,
    alloc: Global,
    image: &Vec<u8>,
    text: &[u8],
    number: u64,
) -> Result<u64, Fail> {
    let mut board = board_of(rt, alloc, image.clone()?)?;
    board.plan(CallKind::Send, number)?;
    let ending = session(alloc, &mut board, "run", text)?;
    assert_eq!(rt; ending, Ending::LinkFault, "send {number}");
    Ok(board.moments())
}

/// Runs the text, and then each prefix of the lines behind it, once.
pub(super) fn trial_behind(
    rt: &impl Abort,
    alloc: Global,
    image: Vec<u8>,
    text: Vec<u8>,
    lines: &[Vec<u8>],
) -> Result<Trial, Fail> {
    let mut text = text;
    let mut prefixes = Vec::new(alloc);
    prefixes.push(prefix_of(rt, alloc, &image, &text)?)?;
    for line in lines {
        text.extend_from_slice(line)?;
        prefixes.push(prefix_of(rt, alloc, &image, &text)?)?;
    }
    let board = after_run(rt, alloc, &image, &text)?;
    let mut before_sends = Vec::new(alloc);
    for number in 0..board.count(CallKind::Send) {
        let number = number.saturating_add(1);
        before_sends.push(steps_before(rt, alloc, &image, &text, number)?)?;
    }
    let sent = board.sent().to_vec(alloc)?;
    Ok(Trial {
        image,
        text,
        prefixes,
        before_sends,
        sent,
    })
}

/// Runs each prefix of the lines once.
pub(super) fn trial_of(
    rt: &impl Abort,
    alloc: Global,
    image: Vec<u8>,
    lines: &[Vec<u8>],
) -> Result<Trial, Fail> {
    trial_behind(rt, alloc, image, Vec::new(alloc), lines)
}

// How many commands are done before a step.
fn done_before(trial: &Trial, moment: u64) -> usize {
    let mut count = 0;
    for prefix in &trial.prefixes {
        if prefix.moments < moment {
            count = usize::saturating_add(count, 1);
        }
    }
    usize::saturating_sub(count, 1)
}

// Whether a line of the command behind so many was sent by a step.
fn has_sent(trial: &Trial, done: usize, moment: u64) -> bool {
    let Some(prefix) = trial.prefixes.get(done) else {
        return false;
    };
    match trial.before_sends.get(prefix.sends as usize) {
        Some(before) => *before < moment,
        None => false,
    }
}

// Whether the listing is that of the table after so many commands.
fn is_after(trial: &Trial, count: usize, listing: &Vec<u8>) -> bool {
    match trial.prefixes.get(count) {
        Some(prefix) => prefix.listing == *listing,
        None => false,
    }
}

/// What a stop at a step of a session of the commands leaves lists the table after the commands that
/// were done before, or the one after the next command too: that one, if a line of it was sent.
pub(super) fn check_stop(
    rt: &impl Abort,
    alloc: Global,
    trial: &Trial,
    board: &MemBoard,
    moment: u64,
    torn: Torn,
) -> Result<(), Fail> {
    let done = done_before(trial, moment);
    let mut left = stopped(rt, alloc, board, moment, torn)?;
    let listing = listing_on(rt, alloc, &mut left)?;
    let is_next = is_after(trial, done.saturating_add(1), &listing);
    let is_same = is_after(trial, done, &listing) && !has_sent(trial, done, moment);
    assert!(rt;
        is_next || is_same,
        "step {moment}, {done} commands, {torn:?}"
    );
    Ok(())
}

// The octets behind so many.
fn octets_behind(octets: &[u8], count: usize) -> &[u8] {
    if count <= octets.len() {
        &octets[count..]
    } else {
        &[]
    }
}

/// On what a stop at a step leaves, a session of the commands that its table does not have sends what
/// they have to send, and leaves the table after all commands.
pub(super) fn check_rest(
    rt: &impl Abort,
    alloc: Global,
    trial: &Trial,
    board: &MemBoard,
    moment: u64,
    torn: Torn,
) -> Result<(), Fail> {
    let mut left = stopped(rt, alloc, board, moment, torn)?;
    let listing = listing_on(rt, alloc, &mut left)?;
    let next = done_before(trial, moment).saturating_add(1);
    let has_next = is_after(trial, next, &listing);
    let count = if has_next {
        next
    } else {
        next.saturating_sub(1)
    };
    let (Some(prefix), Some(all)) = (trial.prefixes.get(count), trial.prefixes.last()) else {
        panic!(rt; "no prefix of {count} commands");
    };
    let mut again = stopped(rt, alloc, board, moment, torn)?;
    let text = octets_behind(&trial.text, prefix.text_length);
    let ending = session(alloc, &mut again, "run", text)?;
    assert_eq!(rt; ending, Ending::Done, "step {moment}, {torn:?}");
    let sent = octets_behind(&trial.sent, prefix.sent_length);
    assert!(rt; again.sent() == sent, "step {moment}, {torn:?}");
    let mut last = stopped(rt, alloc, &again, again.moments(), Torn::Undone)?;
    assert!(rt;
        listing_on(rt, alloc, &mut last)? == all.listing,
        "step {moment}, {torn:?}"
    );
    Ok(())
}
