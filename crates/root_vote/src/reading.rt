// How the votes are read.
ghost use Rattle.std.specs.Prelude.{◌≡◌, IsTrue, IfOk, OnOk, OnErr};
ghost use Rattle.board.specs.Counts.{Rose};
ghost use Rattle.board.specs.Meaning.{TellsFlash};
ghost use Rattle.board.specs.Reads.{ReadsOnly};
ghost use Rattle.root_vote.specs.Roots.{AreVotes};

use crate::page::root_in;
use crate::votes::Votes;
use board::{Board, Failed};

/// What the three root pages spell.
pub fn read_roots<B: Board>(board: &mut B) -> Result<Votes, Failed>
    ensures votes { IfOk result (λ found. TellsFlash B.means board.old → AreVotes found.votes (B.means.flash board.old).content) }
    ensures reads { ReadsOnly B.means 3 board.old board.new }
    ensures no_fault { OnOk result ((B.means.counts board.new).flash_faults ≡ (B.means.counts board.old).flash_faults) }
    ensures cause { OnErr result (Rose (B.means.counts board.old).flash_faults (B.means.counts board.new).flash_faults) }
{
    let mut page = [0; 256];
    board.read_page(0, 0, &mut page)?;
    let first = root_in(&page);
    board.read_page(1, 0, &mut page)?;
    let middle = root_in(&page);
    board.read_page(2, 0, &mut page)?;
    let last = root_in(&page);
    Ok(Votes {
        votes: [first, middle, last],
    })
}
