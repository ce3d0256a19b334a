// An entry is a gate page with its payload pages behind it.
//
// Gate: 256 octets, all of them 0x5a where the gate is open. Where one differs, there is no entry.
// Payload: the entry's length in four octets, highest first, 1 to 5,116; the entry; zeros to the
// end of the last page.
//
// Order of a commit: payload pages, barrier, gate page, barrier.
// 1. The payload is firm before the gate is programmed. A gate that a stop tears may hold any
//    octets, the open pattern among them: then it opens a whole entry.
// 2. So the length stands in the payload and not in the gate.
// 3. The second barrier is the moment from which a stop leaves the entry.
ghost use Rattle.std.specs.Prelude.{◌≡◌, ◌⊎◌, ◌<◌, ◌≤◌, ◌+◌, ◌*◌, [], ◌∷◌, ◌++◌, ℕ, List, length};
ghost use Rattle.std.specs.Prelude.{IfOk, OnOk, OnErr};
ghost use Rattle.board.specs.Counts.{Rose, RoseBy};
ghost use Rattle.board.specs.Meaning.{TellsFlash};
ghost use Rattle.board.specs.Moments.{LeavesInTurn, LeavesOnly};
ghost use Rattle.board.specs.Touches.{Touches};
ghost use Rattle.commit_gate.specs.Commits.{HasAllButGate, IsBefore, IsBeforeOrAfter};
ghost use Rattle.commit_gate.specs.Commits.{IsCleanFrom, Stands, entry_pages, with_entry};
ghost use Rattle.commit_gate.specs.Entries.{payload_pages};

use crate::area::Area;
use crate::payload::payload_pages;
use crate::text::write_text;
use board::{Board, Failed};

const OPEN: [u8; 256] = [0x5a; 256];

/// Writes an entry of 1 to 5,116 octets behind the others of an area, with its gate in the page
/// `at`, and returns the page behind it. From `Ok` on a stop leaves it. `Failed`: a call of the
/// board failed; the entry is then there whole or not at all. No other page is touched, also if it
/// failed.
pub fn append<B: Board>(board: &mut B, area: Area, at: u32, entry: &[u8]) -> Result<u32, Failed>
    requires first { (area.first ≡ 3) ⊎ (area.first ≡ 5) }
    requires shortest { 1 ≤ length entry.now }
    requires longest { length entry.now ≤ 5116 }
    requires room { at + 1 + payload_pages (length entry.now) ≤ 512 }
    requires clean { TellsFlash B.means board.old
        → IsCleanFrom (B.means.flash board.old) (256 * area.first) at }

    ensures next { IfOk result (λ next. next ≡ at + 1 + payload_pages (length entry.now)) }
    ensures flash { OnOk result (TellsFlash B.means board.old → B.means.flash board.new
        ≡ with_entry (256 * area.first) at entry.now (B.means.flash board.old)) }
    ensures seen { OnOk result (TellsFlash B.means board.old
        → B.means.images board.new (B.means.moment board.new) (B.means.flash board.new).content) }

    // From then on a stop leaves the entry, and what is behind it is clean.
    ensures stands { OnOk result (TellsFlash B.means board.old
        → (start : ℕ) (entries : List (List ℕ))
        → Stands (B.means.flash board.old) (256 * area.first) start entries at
        → Stands (B.means.flash board.new) (256 * area.first) start (entries ++ entry.now ∷ [])
        (at + 1 + payload_pages (length entry.now))) }
    ensures clean { OnOk result (TellsFlash B.means board.old
        → IsCleanFrom (B.means.flash board.new) (256 * area.first)
        (at + 1 + payload_pages (length entry.now))) }

    // A stop at any moment of the call leaves the entries from before it, or those and this one.
    ensures any_moment { TellsFlash B.means board.old
        → (start : ℕ) (entries : List (List ℕ))
        → Stands (B.means.flash board.old) (256 * area.first) start entries at
        → LeavesOnly B.means board.old board.new (IsBeforeOrAfter (B.means.device board.old).blocks
        (B.means.flash board.old) (256 * area.first) start entries at entry.now) }

    // Up to some moment no image has the entry. Behind it each has all of the entry but its gate.
    ensures in_turn { TellsFlash B.means board.old
        → (start : ℕ) (entries : List (List ℕ))
        → Stands (B.means.flash board.old) (256 * area.first) start entries at
        → LeavesInTurn B.means board.old board.new
        (IsBefore (B.means.device board.old).blocks (B.means.flash board.old)
        (256 * area.first) start entries at entry.now)
        (HasAllButGate (B.means.device board.old).blocks (B.means.flash board.old)
        (256 * area.first) at entry.now) }

    // No other page is touched, also where a call failed: one that was clean still is.
    ensures touches { Touches B.means (entry_pages (256 * area.first) at entry.now)
        (1 + payload_pages (length entry.now)) 0 2 board.old board.new }
    ensures programs { OnOk result (RoseBy (1 + payload_pages (length entry.now))
        (B.means.counts board.old).programs (B.means.counts board.new).programs) }
    ensures barriers { OnOk result
        (RoseBy 2 (B.means.counts board.old).barriers (B.means.counts board.new).barriers) }
    ensures no_fault { OnOk result
        ((B.means.counts board.new).flash_faults ≡ (B.means.counts board.old).flash_faults) }
    ensures cause { OnErr result
        (Rose (B.means.counts board.old).flash_faults (B.means.counts board.new).flash_faults) }
{
    write_text(board, area, at + 1, entry)?;
    board.barrier()?;
    area.program(board, at, &OPEN)?;
    board.barrier()?;
    Ok(at + 1 + payload_pages(entry.len() as u32))
}
