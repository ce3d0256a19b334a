// The entries of an area, one after the other.
ghost use Rattle.std.specs.Prelude.{◌≡◌, ◌⊎◌, ◌<◌, ◌≤◌, ◌*◌, length, IfOk, OnOk, OnErr};
ghost use Rattle.board.specs.Counts.{Rose, RoseBy};
ghost use Rattle.board.specs.Meaning.{TellsFlash};
ghost use Rattle.board.specs.Reads.{ReadsOnly};
ghost use Rattle.commit_gate.specs.Entries.{area_of, entry_at, is_open};
ghost use Rattle.commit_gate.specs.Shown.{IsInArea, read_for, read_most, shown};

use crate::area::Area;
use crate::payload::{is_lawful, payload_pages};
use crate::text::{read_length, read_rest};
use board::{Board, Failed};

const LONGEST: u32 = 5116;

/// What stands at a page of an area.
#[derive(Clone, Copy, Debug, PartialEq, Eq)]
pub enum Next<'a> {
    /// The octets of an entry, and the page behind it.
    Entry { text: &'a [u8], next: u32 },
    /// The gate is not open, or there is no page behind it.
    End,
    /// The gate is open, and this length behind it is 0, above 5,116, or does not fit the area.
    Damaged { length: u32 },
}

fn is_open(page: &[u8]) -> bool
    ensures { result ≡ is_open page.now }
{
    page == [0x5a; 256].as_slice()
}

// Whether the gate in the page `at` is open.
fn read_gate<B: Board>(board: &mut B, area: Area, at: u32) -> Result<bool, Failed>
    requires block { area.first ≤ 5 }
    requires place { at < 512 }

    ensures shown { IfOk result (λ shown. TellsFlash B.means board.old
        → shown ≡ is_open (area_of (256 * area.first) (B.means.flash board.old).content at)) }
    ensures reads { ReadsOnly B.means 1 board.old board.new }
    ensures counted { OnOk result
        (Rose (B.means.counts board.old).reads (B.means.counts board.new).reads) }
    ensures no_fault { OnOk result
        ((B.means.counts board.new).flash_faults ≡ (B.means.counts board.old).flash_faults) }
    ensures cause { OnErr result
        (Rose (B.means.counts board.old).flash_faults (B.means.counts board.new).flash_faults) }
{
    let mut page = [0; 256];
    area.read_page(board, at, &mut page)?;
    Ok(is_open(&page))
}

/// What stands at the page `at`, at most 512, read into `buf`, which has at least 5,120 octets.
/// Each page is read once, and none behind a gate that is not open. `Failed`: a read failed; `buf`
/// then holds any octets.
pub fn next_entry<'a, B: Board>(
    board: &mut B,
    area: Area,
    at: u32,
    buf: &'a mut [u8],
) -> Result<Next<'a>, Failed>
    requires first { (area.first ≡ 3) ⊎ (area.first ≡ 5) }
    requires at { at ≤ 512 }
    requires room { 5120 ≤ length buf.old }

    ensures next { IfOk result (λ next. TellsFlash B.means board.old
        → entry_at (area_of (256 * area.first) (B.means.flash board.old).content) at ≡ shown next) }
    ensures range { IfOk result (λ next. IsInArea at next) }
    ensures reads { ReadsOnly B.means (read_most at result) board.old board.new }
    ensures counted { IfOk result (λ next. RoseBy (read_for at next)
        (B.means.counts board.old).reads (B.means.counts board.new).reads) }
    ensures no_fault { OnOk result
        ((B.means.counts board.new).flash_faults ≡ (B.means.counts board.old).flash_faults) }
    ensures cause { OnErr result
        (Rose (B.means.counts board.old).flash_faults (B.means.counts board.new).flash_faults) }
{
    if at > 510 {
        return Ok(Next::End);
    }
    if !read_gate(board, area, at)? {
        return Ok(Next::End);
    }
    let length = read_length(board, area, at + 1, buf)?;
    if !is_lawful(LONGEST, at + 1, length) {
        return Ok(Next::Damaged { length });
    }
    let pages = payload_pages(length);
    read_rest(board, area, at + 1, pages, buf)?;
    Ok(Next::Entry {
        text: &buf[4..4 + length as usize],
        next: at + 1 + pages,
    })
}
