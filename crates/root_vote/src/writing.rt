// How root pages are rewritten.
//
// Order, for the root blocks 0, 1 and 2: erase, barrier, program, barrier. While a page is rewritten it may
// hold any octets, so the other two decide:
// 1. From old roots v to new roots w the votes pass through (any, v, v), (w, any, v) and (w, w, any).
// 2. The first gives v, the last w, and the middle one v, w or their split.
// 3. So no block may be erased before the page in front of it is firm.
ghost use Rattle.std.specs.Prelude.{◌≡◌, ◌<◌, ◌≤◌, ◌*◌, ℕ, length, IsTrue, OnOk, OnErr};
ghost use Rattle.board.specs.Counts.{Rose};
ghost use Rattle.board.specs.Flash.{pages_of_block};
ghost use Rattle.board.specs.Meaning.{TellsFlash};
ghost use Rattle.board.specs.Moments.{LeavesOnly};
ghost use Rattle.board.specs.Touches.{Touches};
ghost use Rattle.root_vote.specs.declared.root.Root.{Root};
ghost use Rattle.root_vote.specs.Roots.{AreVotes, LeadsTo, choice_of_votes};
ghost use Rattle.root_vote.specs.Rooted.{FirmRoots, IsBetween, IsRepaired, Rooted, is_root_block, rewritten, settled, settled_pages, settled_work, with_repairs, with_roots};

use crate::page::root_page;
use crate::root::Root;
use crate::votes::{Votes, is_vote};
use board::{Board, Failed};

// Erases a block, and programs its first page with 256 octets.
fn rewrite<B: Board>(board: &mut B, block: u32, page: &[u8]) -> Result<(), Failed>
    requires block { block < (B.means.device board.old).blocks }
    requires length { length page.now ≡ 256 }

    ensures flash { OnOk result (TellsFlash B.means board.old → B.means.flash board.new ≡ rewritten block page.now (B.means.flash board.old)) }
    ensures seen { OnOk result (TellsFlash B.means board.old → B.means.images board.new (B.means.moment board.new) (B.means.flash board.new).content) }
    ensures touches { Touches B.means (pages_of_block block) 1 1 2 board.old board.new }
    ensures no_fault { OnOk result ((B.means.counts board.new).flash_faults ≡ (B.means.counts board.old).flash_faults) }
    ensures cause { OnErr result (Rose (B.means.counts board.old).flash_faults (B.means.counts board.new).flash_faults) }
{
    board.erase(block)?;
    board.barrier()?;
    board.program(block, 0, page)?;
    board.barrier()?;
    Ok(())
}

// Rewrites a root page where it votes for another root.
fn settle<B: Board>(board: &mut B, block: u32, vote: Option<Root>, to: Root) -> Result<(), Failed>
    requires block { block < (B.means.device board.old).blocks }

    ensures flash { OnOk result (TellsFlash B.means board.old → B.means.flash board.new ≡ settled block vote to (B.means.flash board.old)) }
    ensures seen { OnOk result (TellsFlash B.means board.old
        → B.means.images board.old (B.means.moment board.old) (B.means.flash board.old).content → B.means.images board.new (B.means.moment board.new) (B.means.flash board.new).content) }
    ensures touches { Touches B.means (settled_pages block vote to) (settled_work vote to) (settled_work vote to) (2 * settled_work vote to) board.old board.new }
    ensures no_fault { OnOk result ((B.means.counts board.new).flash_faults ≡ (B.means.counts board.old).flash_faults) }
    ensures cause { OnErr result (Rose (B.means.counts board.old).flash_faults (B.means.counts board.new).flash_faults) }
{
    if is_vote(vote, to) {
        return Ok(());
    }
    let page = root_page(to);
    rewrite(board, block, &page)?;
    Ok(())
}

/// Rewrites each root page that votes for another root than `to`: the one agreed on, or the first of a split.
pub fn repair<B: Board>(board: &mut B, votes: &Votes, to: Root) -> Result<(), Failed>
    requires { LeadsTo to (choice_of_votes votes.now.votes) }

    ensures flash { OnOk result (TellsFlash B.means board.old → B.means.flash board.new ≡ with_repairs votes.now.votes to (B.means.flash board.old)) }
    ensures seen { OnOk result (TellsFlash B.means board.old
        → B.means.images board.old (B.means.moment board.old) (B.means.flash board.old).content → B.means.images board.new (B.means.moment board.new) (B.means.flash board.new).content) }
    ensures rooted { OnOk result (TellsFlash B.means board.old → AreVotes votes.now.votes (B.means.flash board.old).content → FirmRoots (B.means.flash board.old)
        → Rooted to (B.means.flash board.new)) }

    // Where these are the votes, a stop at any moment leaves the choice of `to`, or a split's, its first's or its last's.
    ensures any_moment { TellsFlash B.means board.old → AreVotes votes.now.votes (B.means.flash board.old).content → FirmRoots (B.means.flash board.old)
        → LeavesOnly B.means board.old board.new (IsRepaired (B.means.device board.old).blocks (B.means.flash board.old) (choice_of_votes votes.now.votes)) }

    ensures touches { Touches B.means is_root_block 2 2 4 board.old board.new }
    ensures no_fault { OnOk result ((B.means.counts board.new).flash_faults ≡ (B.means.counts board.old).flash_faults) }
    ensures cause { OnErr result (Rose (B.means.counts board.old).flash_faults (B.means.counts board.new).flash_faults) }
{
    settle(board, 0, votes.votes[0], to)?;
    settle(board, 1, votes.votes[1], to)?;
    settle(board, 2, votes.votes[2], to)?;
    Ok(())
}

/// Rewrites the three root pages.
pub fn advance<B: Board>(board: &mut B, to: Root) -> Result<(), Failed>
    ensures flash { OnOk result (TellsFlash B.means board.old → B.means.flash board.new ≡ with_roots to (B.means.flash board.old)) }
    ensures seen { OnOk result (TellsFlash B.means board.old → B.means.images board.new (B.means.moment board.new) (B.means.flash board.new).content) }
    ensures rooted { OnOk result (TellsFlash B.means board.old → Rooted to (B.means.flash board.new)) }

    // Where the pages spelled one root, a stop at any moment leaves the choice of it, of the new one, or of their split.
    ensures any_moment { TellsFlash B.means board.old → (was : Root) → Rooted was (B.means.flash board.old)
        → LeavesOnly B.means board.old board.new (IsBetween (B.means.device board.old).blocks (B.means.flash board.old) to was) }

    ensures touches { Touches B.means is_root_block 3 3 6 board.old board.new }
    ensures no_fault { OnOk result ((B.means.counts board.new).flash_faults ≡ (B.means.counts board.old).flash_faults) }
    ensures cause { OnErr result (Rose (B.means.counts board.old).flash_faults (B.means.counts board.new).flash_faults) }
{
    let page = root_page(to);
    rewrite(board, 0, &page)?;
    rewrite(board, 1, &page)?;
    rewrite(board, 2, &page)?;
    Ok(())
}

/// Writes the three root pages, whatever they hold. A format uses it: nothing is said of what a stop leaves in them.
pub fn plant<B: Board>(board: &mut B, to: Root) -> Result<(), Failed>
    ensures flash { OnOk result (TellsFlash B.means board.old → B.means.flash board.new ≡ with_roots to (B.means.flash board.old)) }
    ensures seen { OnOk result (TellsFlash B.means board.old → B.means.images board.new (B.means.moment board.new) (B.means.flash board.new).content) }
    ensures rooted { OnOk result (TellsFlash B.means board.old → Rooted to (B.means.flash board.new)) }
    ensures touches { Touches B.means is_root_block 3 3 6 board.old board.new }
    ensures no_fault { OnOk result ((B.means.counts board.new).flash_faults ≡ (B.means.counts board.old).flash_faults) }
    ensures cause { OnErr result (Rose (B.means.counts board.old).flash_faults (B.means.counts board.new).flash_faults) }
{
    advance(board, to)
}
