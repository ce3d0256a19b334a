// The checkpoint of a half: its length in four octets, highest first, 1 to 20,476; its text; zeros
// to the end of the last page.
ghost use Rattle.std.specs.Prelude.{◌≡◌, ◌⊎◌, ◌≤◌, ◌*◌, length, IfOk, IfSome, MatchOption, OnOk};
ghost use Rattle.std.specs.Prelude.{OnErr};
ghost use Rattle.board.specs.Counts.{Rose};
ghost use Rattle.board.specs.Meaning.{TellsFlash};
ghost use Rattle.board.specs.Reads.{ReadsOnly};
ghost use Rattle.commit_gate.specs.Entries.{Entry, area_of, payload_pages, text_at};
ghost use Rattle.meta_journal.specs.Shown.{HasNoCheckpoint, pages_read};

use board::{Board, Failed};
use commit_gate::{Area, is_lawful, payload_pages, read_length, read_rest};

/// The octets of the longest checkpoint.
const LONGEST: u32 = 20_476;

/// The text of a half's checkpoint, read into `buf`, which has at least 20,480 octets, and the page
/// behind it. None: its length is 0 or above 20,476. Its own pages are read, each once and at
/// most 80, and one alone where there is no checkpoint. `Failed`: a read failed; `buf` then holds any octets.
pub fn checkpoint_of<'a, B: Board>(
    board: &mut B,
    area: Area,
    buf: &'a mut [u8],
) -> Result<Option<(&'a [u8], u32)>, Failed>
    requires first { (area.first ≡ 3) ⊎ (area.first ≡ 5) }
    requires room { 20480 ≤ length buf.old }

    ensures checkpoint { IfOk result (λ found. TellsFlash B.means board.old → MatchOption found
        (HasNoCheckpoint (area_of (256 * area.first) (B.means.flash board.old).content))
        (λ read. text_at 20476 (area_of (256 * area.first) (B.means.flash board.old).content) 0
        ≡ Entry read.0.now read.1)) }
    ensures range { IfOk result (λ found. IfSome found (λ read. (1 ≤ length read.0.now)
        × (length read.0.now ≤ 20476) × (read.1 ≡ payload_pages (length read.0.now)))) }
    ensures reads { ReadsOnly B.means (pages_read result) board.old board.new }
    ensures no_fault { OnOk result
        ((B.means.counts board.new).flash_faults ≡ (B.means.counts board.old).flash_faults) }
    ensures cause { OnErr result
        (Rose (B.means.counts board.old).flash_faults (B.means.counts board.new).flash_faults) }
{
    let length = read_length(board, area, 0, buf)?;
    if !is_lawful(LONGEST, 0, length) {
        return Ok(None);
    }
    let pages = payload_pages(length);
    read_rest(board, area, 0, pages, buf)?;
    Ok(Some((&buf[4..4 + length as usize], pages)))
}
