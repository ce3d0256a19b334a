// A script of commands, stopped at each step.

use super::commands::lines_of;
use super::many_tables::{five_image, many_image};
use super::tables::{formatted_image, full_image};
use super::trial::{Trial, after_run, check_rest, check_stop, trial_behind, trial_of};
use board::Torn;
use std::alloc::Global;
use std::process::Abort;
use std::test::Fail;

/// 60 commands. Their requests send 53 lines, three packets are forwarded, and of eight grants one finds
/// open retrieval off. On the two stores that one retrieves from the second store, and a refusal is
/// reported.
const SCRIPT: &[u8] = b"xaAgfAAaguAdaAegAsgAragAAAq2apA1AA3AgAvyAA4AAg5AiAAAgaAAxAAe";

// Stops a session of the commands at each step behind those of the first prefix.
fn stop_each(rt: &impl Abort, alloc: Global, trial: &Trial, torns: &[Torn]) -> Result<(), Fail> {
    let board = after_run(rt, alloc, &trial.image, &trial.text)?;
    let first = match trial.prefixes.get(0) {
        Some(prefix) => prefix.moments,
        None => 0,
    };
    for moment in first..board.moments().saturating_add(1) {
        for torn in torns {
            check_stop(rt, alloc, trial, &board, moment, *torn)?;
        }
    }
    Ok(())
}

// Stops the script on an image at each step. It sends this many lines, and erases seven blocks: five
// in the switch before the first entry, and two that records are put into. On the two stores one of
// these takes the records of the last block, which was written before.
fn stop_script(
    rt: &impl Abort,
    alloc: Global,
    image: Vec<u8>,
    sends: u64,
    torns: &[Torn],
) -> Result<(), Fail> {
    assert_eq!(rt; SCRIPT.len(), 60);
    let trial = trial_of(rt, alloc, image, &lines_of(alloc, SCRIPT)?)?;
    if let Some(all) = trial.prefixes.last() {
        assert_eq!(rt; (all.erases, all.sends), (7, sends));
    }
    stop_each(rt, alloc, &trial, torns)
}

#[test]
fn a_stop_on_two_stores_leaves_pages_done_or_undone(rt: HostRuntime) -> Result<(), Fail> {
    let alloc = rt.alloc();
    let torns = [Torn::Done, Torn::Undone];
    stop_script(&rt, alloc, full_image(alloc)?, 65, &torns)
}

#[test]
fn a_stop_on_two_stores_leaves_pages_filled(rt: HostRuntime) -> Result<(), Fail> {
    let alloc = rt.alloc();
    let torns = [Torn::Fill(0), Torn::Fill(0x5a), Torn::Fill(255)];
    stop_script(&rt, alloc, full_image(alloc)?, 65, &torns)
}

#[test]
fn a_stop_after_a_format_leaves_pages_done_or_undone(rt: HostRuntime) -> Result<(), Fail> {
    let alloc = rt.alloc();
    let torns = [Torn::Done, Torn::Undone];
    stop_script(&rt, alloc, formatted_image(alloc)?, 63, &torns)
}

#[test]
fn a_stop_after_a_format_leaves_pages_filled(rt: HostRuntime) -> Result<(), Fail> {
    let alloc = rt.alloc();
    let torns = [Torn::Fill(0), Torn::Fill(0x5a), Torn::Fill(255)];
    stop_script(&rt, alloc, formatted_image(alloc)?, 63, &torns)
}

// A half has room for 511 pages behind a checkpoint of one page, and an entry of one page takes one
// more for its gate. The first command is a switch, and so is the one that finds less than 21 pages,
// which is the 247th.
#[test]
fn a_stop_within_a_second_switch_leaves_a_table(rt: HostRuntime) -> Result<(), Fail> {
    let alloc = rt.alloc();
    let lines = lines_of(alloc, &[b'x'; 240])?;
    let mut text = Vec::new(alloc);
    for line in &lines {
        text.extend_from_slice(line)?;
    }
    let lines = lines_of(alloc, b"agAxfadAeag")?;
    let trial = trial_behind(&rt, alloc, formatted_image(alloc)?, text, &lines)?;
    if let Some(prefix) = trial.prefixes.get(6) {
        assert_eq!(rt; prefix.erases, 6);
    }
    if let Some(prefix) = trial.prefixes.get(7) {
        assert_eq!(rt; prefix.erases, 11);
    }
    let torns = [Torn::Done, Torn::Undone, Torn::Fill(0x5a)];
    stop_each(&rt, alloc, &trial, &torns)
}

/// Of the steps of a long session, each that is a multiple of this.
const STRIDE: u64 = 11;

// Stops a session of the commands at some steps, and goes on after each stop with those commands that the
// table does not have.
fn stop_and_go_on(
    rt: &impl Abort,
    alloc: Global,
    image: Vec<u8>,
    letters: &[u8],
) -> Result<(), Fail> {
    let trial = trial_of(rt, alloc, image, &lines_of(alloc, letters)?)?;
    let board = after_run(rt, alloc, &trial.image, &trial.text)?;
    for moment in 0..board.moments().saturating_add(1) {
        if moment % STRIDE == 0 {
            for torn in [Torn::Done, Torn::Undone, Torn::Fill(0x5a)] {
                check_stop(rt, alloc, &trial, &board, moment, torn)?;
                check_rest(rt, alloc, &trial, &board, moment, torn)?;
            }
        }
    }
    Ok(())
}

#[test]
fn a_session_goes_on_after_a_stop(rt: HostRuntime) -> Result<(), Fail> {
    let alloc = rt.alloc();
    stop_and_go_on(&rt, alloc, full_image(alloc)?, SCRIPT)?;
    stop_and_go_on(&rt, alloc, formatted_image(alloc)?, SCRIPT)
}

// The roots of the image are split, and so repaired before the first switch.
#[test]
fn a_stop_on_split_roots_leaves_a_table(rt: HostRuntime) -> Result<(), Fail> {
    let alloc = rt.alloc();
    let trial = trial_of(
        &rt,
        alloc,
        five_image(alloc)?,
        &lines_of(alloc, b"agAaxgAgyAgg")?,
    )?;
    let torns = [
        Torn::Done,
        Torn::Undone,
        Torn::Fill(0),
        Torn::Fill(0x5a),
        Torn::Fill(255),
    ];
    stop_each(&rt, alloc, &trial, &torns)
}

#[test]
fn a_stop_on_many_stores_leaves_a_table(rt: HostRuntime) -> Result<(), Fail> {
    let alloc = rt.alloc();
    stop_and_go_on(&rt, alloc, many_image(alloc)?, b"Agag")
}
