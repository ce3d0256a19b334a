// A text stands behind its length in four octets, highest first, with zeros to the end of its last
// page.
ghost use Rattle.std.specs.Prelude.{◌≡◌, ◌<◌, ◌≤◌, ◌+◌, ◌-◌, ◌*◌, length, drop, take};
ghost use Rattle.std.specs.Prelude.{IfOk, OnOk, OnErr};
ghost use Rattle.board.specs.Counts.{Rose, RoseBy};
ghost use Rattle.board.specs.Meaning.{TellsFlash};
ghost use Rattle.board.specs.Reads.{ReadsOnly};
ghost use Rattle.board.specs.Touches.{SameElsewhere, Touches};
ghost use Rattle.commit_gate.specs.Commits.{IsCleanFrom, text_pages, with_text};
ghost use Rattle.commit_gate.specs.Entries.{area_of, length_in, octets_from, payload_pages};

use crate::area::Area;
use crate::payload::{fill_page, payload_pages};
use board::{Board, Failed};
use byteorder::{BigEndian, ByteOrder};

/// Programs a text of at most 20,476 octets into the pages from `first` on. Until a barrier, a stop
/// may leave anything in them. `Failed`: a program failed; no other page changed.
pub fn write_text<B: Board>(
    board: &mut B,
    area: Area,
    first: u32,
    text: &[u8],
) -> Result<(), Failed>
    requires block { area.first ≤ 5 }
    requires length { length text.now ≤ 20476 }
    requires room { first + payload_pages (length text.now) ≤ 512 }
    requires clean { TellsFlash B.means board.old
        → IsCleanFrom (B.means.flash board.old) (256 * area.first) first }

    ensures ok { OnOk result (TellsFlash B.means board.old → B.means.flash board.new
        ≡ with_text (256 * area.first) first text.now (B.means.flash board.old)) }
    ensures others { TellsFlash B.means board.old → SameElsewhere
        (text_pages (256 * area.first) first text.now)
        (B.means.flash board.old) (B.means.flash board.new) }
    ensures seen { OnOk result (TellsFlash B.means board.old
        → B.means.images board.new (B.means.moment board.new) (B.means.flash board.new).content) }
    ensures touches { Touches B.means (text_pages (256 * area.first) first text.now)
        (payload_pages (length text.now)) 0 0 board.old board.new }
    ensures programs { OnOk result (RoseBy (payload_pages (length text.now))
        (B.means.counts board.old).programs (B.means.counts board.new).programs) }
    ensures no_fault { OnOk result
        ((B.means.counts board.new).flash_faults ≡ (B.means.counts board.old).flash_faults) }
    ensures cause { OnErr result
        (Rose (B.means.counts board.old).flash_faults (B.means.counts board.new).flash_faults) }
{
    let mut page = [0; 256];
    for index in 0..payload_pages(text.len() as u32) {
        fill_page(text, index, &mut page);
        area.program(board, first + index, &page)?;
    }
    Ok(())
}

/// Reads the page `first` into the front of `buf`, at least 256 octets, and returns the length in
/// its first four octets. After `Failed`, these 256 octets may be any. The rest of `buf` is left.
pub fn read_length<B: Board>(
    board: &mut B,
    area: Area,
    first: u32,
    buf: &mut [u8],
) -> Result<u32, Failed>
    requires block { area.first ≤ 5 }
    requires place { first < 512 }
    requires room { 256 ≤ length buf.old }

    ensures page { OnOk result (TellsFlash B.means board.old
        → take 256 buf.new ≡ area_of (256 * area.first) (B.means.flash board.old).content first) }
    ensures length { IfOk result (λ found. TellsFlash B.means board.old
        → found ≡ length_in (area_of (256 * area.first) (B.means.flash board.old).content first)) }
    ensures rest { drop 256 buf.new ≡ drop 256 buf.old }
    ensures reads { ReadsOnly B.means 1 board.old board.new }
    ensures counted { OnOk result
        (Rose (B.means.counts board.old).reads (B.means.counts board.new).reads) }
    ensures no_fault { OnOk result
        ((B.means.counts board.new).flash_faults ≡ (B.means.counts board.old).flash_faults) }
    ensures cause { OnErr result
        (Rose (B.means.counts board.old).flash_faults (B.means.counts board.new).flash_faults) }
{
    area.read_page(board, first, &mut buf[..256])?;
    Ok(BigEndian::read_u32(buf))
}

/// Reads the pages behind the page `first`, whose octets stand in front of `buf`, until it has the
/// octets of so many pages. After `Failed`, those behind the first page hold anything. The rest of
/// `buf` is left.
pub fn read_rest<B: Board>(
    board: &mut B,
    area: Area,
    first: u32,
    pages: u32,
    buf: &mut [u8],
) -> Result<(), Failed>
    requires block { area.first ≤ 5 }
    requires some { 1 ≤ pages }
    requires within { first + pages ≤ 512 }
    requires room { 256 * pages ≤ length buf.old }
    requires page { TellsFlash B.means board.old
        → take 256 buf.old ≡ area_of (256 * area.first) (B.means.flash board.old).content first }

    ensures read { OnOk result (TellsFlash B.means board.old → take (256 * pages) buf.new
        ≡ octets_from (area_of (256 * area.first) (B.means.flash board.old).content) first pages) }
    ensures front { take 256 buf.new ≡ take 256 buf.old }
    ensures rest { drop (256 * pages) buf.new ≡ drop (256 * pages) buf.old }
    ensures reads { ReadsOnly B.means (pages - 1) board.old board.new }
    ensures counted { OnOk result
        (RoseBy (pages - 1) (B.means.counts board.old).reads (B.means.counts board.new).reads) }
    ensures no_fault { OnOk result
        ((B.means.counts board.new).flash_faults ≡ (B.means.counts board.old).flash_faults) }
    ensures cause { OnErr result
        (Rose (B.means.counts board.old).flash_faults (B.means.counts board.new).flash_faults) }
{
    for i in 1..pages {
        let start = 256 * i as usize;
        area.read_page(board, first + i, &mut buf[start..start + 256])?;
    }
    Ok(())
}
