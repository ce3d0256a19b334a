// The pages of an area on a board.
ghost use Rattle.std.specs.Prelude.{◌≡◌, ◌⊎◌, ◌<◌, ◌≤◌, ◌+◌, ◌*◌, length, OnOk, OnErr};
ghost use Rattle.board.specs.Counts.{Rose};
ghost use Rattle.board.specs.Flash.{Fails, IsClean, only_page, written};
ghost use Rattle.board.specs.Meaning.{TellsFlash};
ghost use Rattle.board.specs.Reads.{ReadsOnly};
ghost use Rattle.board.specs.Touches.{SameElsewhere, Touches};
ghost use Rattle.commit_gate.specs.Entries.{area_of};

use board::{Board, Failed};

/// Two blocks in a row, seen as 512 pages: page p is page p % 256 of the block `first` + p / 256.
#[derive(Clone, Copy, Debug, PartialEq, Eq)]
pub struct Area {
    /// The first block: 3 or 5.
    pub first: u32,
}

impl Area {
    /// Reads the page `at` into 256 octets. After `Failed`, `into` holds any octets.
    pub fn read_page<B: Board>(self, board: &mut B, at: u32, into: &mut [u8]) -> Result<(), Failed>
        requires first { self.first ≤ 5 }
        requires place { at < 512 }
        requires length { length into.old ≡ 256 }

        ensures read { OnOk result (TellsFlash B.means board.old
            → into.new ≡ area_of (256 * self.first) (B.means.flash board.old).content at) }
        ensures reads { ReadsOnly B.means 1 board.old board.new }
        ensures counted { OnOk result
            (Rose (B.means.counts board.old).reads (B.means.counts board.new).reads) }
        ensures no_fault { OnOk result
            ((B.means.counts board.new).flash_faults ≡ (B.means.counts board.old).flash_faults) }
        ensures cause { OnErr result
            (Rose (B.means.counts board.old).flash_faults (B.means.counts board.new).flash_faults) }
    {
        board.read_page(self.first + at / 256, at % 256, into)
    }

    /// Programs the clean page `at` with 256 octets. Until a barrier, a stop may leave anything in
    /// it.
    pub fn program<B: Board>(self, board: &mut B, at: u32, from: &[u8]) -> Result<(), Failed>
        requires first { self.first ≤ 5 }
        requires place { at < 512 }
        requires length { length from.now ≡ 256 }
        requires clean { TellsFlash B.means board.old
            → IsClean (B.means.flash board.old) (256 * self.first + at) }

        ensures ok { OnOk result (TellsFlash B.means board.old → B.means.flash board.new ≡ written
            (only_page (256 * self.first + at)) (λ _. from.now) (B.means.flash board.old)) }
        ensures err { OnErr result (TellsFlash B.means board.old → Fails
            (only_page (256 * self.first + at))
            (B.means.flash board.old) (B.means.flash board.new)) }
        ensures others { TellsFlash B.means board.old → SameElsewhere
            (only_page (256 * self.first + at))
            (B.means.flash board.old) (B.means.flash board.new) }
        ensures later { TellsFlash B.means board.old
            → (B.means.flash board.new ≡ B.means.flash board.old)
            ⊎ (B.means.moment board.old < B.means.moment board.new) }
        ensures seen { OnOk result (TellsFlash B.means board.old → B.means.images
            board.new (B.means.moment board.new) (B.means.flash board.new).content) }
        ensures touches { Touches B.means
            (only_page (256 * self.first + at)) 1 0 0 board.old board.new }
        ensures counted { OnOk result
            (Rose (B.means.counts board.old).programs (B.means.counts board.new).programs) }
        ensures no_fault { OnOk result
            ((B.means.counts board.new).flash_faults ≡ (B.means.counts board.old).flash_faults) }
        ensures cause { OnErr result
            (Rose (B.means.counts board.old).flash_faults (B.means.counts board.new).flash_faults) }
    {
        board.program(self.first + at / 256, at % 256, from)
    }
}
