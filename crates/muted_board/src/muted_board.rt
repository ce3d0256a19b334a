// A board over another one that takes lines without sending them.
ghost use Rattle.std.specs.Prelude.{◌≡◌, ◌≤◌, ◌<◌, ◌+◌, ◌*◌, ◌++◌, ◌⊎◌, length, OnErr, OnOk};
ghost use Rattle.board.specs.Counts.{Rose, Sends};
ghost use Rattle.board.specs.Flash.{Fails, IsClean, firm, only_page, pages_of_block, wiped, written};
ghost use Rattle.board.specs.Meaning.{TellsFlash, TellsLink};
ghost use Rattle.board.specs.Moments.{GainsFront, SendsOnly};
ghost use Rattle.board.specs.Reads.{FlashStays, ReadsOnly};
ghost use Rattle.board.specs.Touches.{Touches, no_page};

use board::{Board, Failed};

/// The flash of another board, with a link that takes lines without sending them. Each call of the
/// flash is passed on. A line is counted, and no call is made for it.
///
/// It tells its flash if the other board does, and never its link. Its counts of faults, reads,
/// programs, erases and barriers are those of the other board, but no call of the link has failed;
/// its count of sends is of the lines that it took itself.
///
/// Its device names the reference to the other board and tells of the link of that one, so no call changes
/// them: a caller that hands this board to a function over any board knows what the other board is
/// afterwards.
#[derive(Drop)]
pub struct MutedBoard<'a, B: Board> {
    board: &'a mut B,
    sends: u64,
}

impl<'a, B: Board> MutedBoard<'a, B> {
    ghost use Rattle.muted_board.specs.Muted.{board_of, counts_of, name_of};

    /// The board over another one. No line was taken yet.
    pub fn new(board: &'a mut B) -> MutedBoard<'a, B>
        ensures over { board_of result ≡ board.old }
        ensures no_lines { (counts_of B.means result).sends ≡ 0 }
        ensures same_reference { name_of result ≡ board.entry.ghost_name }
    {
        MutedBoard { board, sends: 0 }
    }
}

impl<'a, B: Board> Board for MutedBoard<'a, B> {
    ghost use Rattle.muted_board.specs.Muted.{board_of, muted_means};

    ghost means = { muted_means B.means };

    ghost enough_blocks = { λ board. B.enough_blocks board.board.now };

    ghost few_blocks = { λ board. B.few_blocks board.board.now };

    ghost content_pages = { λ board told. B.content_pages board.board.now told };

    ghost erased_blank = { λ board p told erased. B.erased_blank board.board.now p told erased };

    ghost images_now = { λ board image told left. B.images_now board.board.now image told left };

    fn blocks(&self) -> u32 {
        self.board.blocks()
    }

    fn read_page(&mut self, block: u32, page: u32, into: &mut [u8]) -> Result<(), Failed>
        requires block { block < ((muted_means B.means).device self.old).blocks }
        requires page { page < 256 }
        requires length { length into.old ≡ 256 }

        ensures read { OnOk result (TellsFlash (muted_means B.means) self.old
            → into.new ≡ ((muted_means B.means).flash self.old).content (256 * block + page)) }
        ensures reads { ReadsOnly (muted_means B.means) 1 self.old self.new }
        ensures counted { OnOk result (Rose ((muted_means B.means).counts self.old).reads ((muted_means B.means).counts self.new).reads) }
        ensures no_fault { OnOk result (((muted_means B.means).counts self.new).flash_faults ≡ ((muted_means B.means).counts self.old).flash_faults) }
        ensures cause { OnErr result (Rose ((muted_means B.means).counts self.old).flash_faults ((muted_means B.means).counts self.new).flash_faults) }
    {
        self.board.read_page(block, page, into)
    }

    fn program(&mut self, block: u32, page: u32, from: &[u8]) -> Result<(), Failed>
        requires block { block < ((muted_means B.means).device self.old).blocks }
        requires page { page < 256 }
        requires length { length from.now ≡ 256 }
        requires clean { TellsFlash (muted_means B.means) self.old → IsClean ((muted_means B.means).flash self.old) (256 * block + page) }

        ensures ok { OnOk result (TellsFlash (muted_means B.means) self.old → (muted_means B.means).flash self.new
            ≡ written (only_page (256 * block + page)) (λ _. from.now) ((muted_means B.means).flash self.old)) }
        ensures err { OnErr result (TellsFlash (muted_means B.means) self.old
            → Fails (only_page (256 * block + page)) ((muted_means B.means).flash self.old) ((muted_means B.means).flash self.new)) }
        ensures later { TellsFlash (muted_means B.means) self.old
            → ((muted_means B.means).flash self.new ≡ (muted_means B.means).flash self.old) ⊎ ((muted_means B.means).moment self.old < (muted_means B.means).moment self.new) }
        ensures seen { OnOk result (TellsFlash (muted_means B.means) self.old
            → (muted_means B.means).images self.new ((muted_means B.means).moment self.new) ((muted_means B.means).flash self.new).content) }
        ensures touches { Touches (muted_means B.means) (only_page (256 * block + page)) 1 0 0 self.old self.new }
        ensures counted { OnOk result (Rose ((muted_means B.means).counts self.old).programs ((muted_means B.means).counts self.new).programs) }
        ensures no_fault { OnOk result (((muted_means B.means).counts self.new).flash_faults ≡ ((muted_means B.means).counts self.old).flash_faults) }
        ensures cause { OnErr result (Rose ((muted_means B.means).counts self.old).flash_faults ((muted_means B.means).counts self.new).flash_faults) }
    {
        self.board.program(block, page, from)
    }

    fn erase(&mut self, block: u32) -> Result<(), Failed>
        requires { block < ((muted_means B.means).device self.old).blocks }

        ensures ok { OnOk result (TellsFlash (muted_means B.means) self.old
            → (muted_means B.means).flash self.new ≡ wiped (pages_of_block block) ((muted_means B.means).flash self.old)) }
        ensures err { OnErr result (TellsFlash (muted_means B.means) self.old
            → Fails (pages_of_block block) ((muted_means B.means).flash self.old) ((muted_means B.means).flash self.new)) }
        ensures later { TellsFlash (muted_means B.means) self.old
            → ((muted_means B.means).flash self.new ≡ (muted_means B.means).flash self.old) ⊎ ((muted_means B.means).moment self.old < (muted_means B.means).moment self.new) }
        ensures seen { OnOk result (TellsFlash (muted_means B.means) self.old
            → (muted_means B.means).images self.new ((muted_means B.means).moment self.new) ((muted_means B.means).flash self.new).content) }
        ensures touches { Touches (muted_means B.means) (pages_of_block block) 0 1 0 self.old self.new }
        ensures counted { OnOk result (Rose ((muted_means B.means).counts self.old).erases ((muted_means B.means).counts self.new).erases) }
        ensures no_fault { OnOk result (((muted_means B.means).counts self.new).flash_faults ≡ ((muted_means B.means).counts self.old).flash_faults) }
        ensures cause { OnErr result (Rose ((muted_means B.means).counts self.old).flash_faults ((muted_means B.means).counts self.new).flash_faults) }
    {
        self.board.erase(block)
    }

    fn barrier(&mut self) -> Result<(), Failed>
        ensures ok { OnOk result (TellsFlash (muted_means B.means) self.old → (muted_means B.means).flash self.new ≡ firm ((muted_means B.means).flash self.old)) }
        ensures err { OnErr result (TellsFlash (muted_means B.means) self.old → (muted_means B.means).flash self.new ≡ (muted_means B.means).flash self.old) }
        ensures later { TellsFlash (muted_means B.means) self.old
            → ((muted_means B.means).flash self.new ≡ (muted_means B.means).flash self.old) ⊎ ((muted_means B.means).moment self.old < (muted_means B.means).moment self.new) }
        ensures seen { OnOk result (TellsFlash (muted_means B.means) self.old
            → (muted_means B.means).images self.new ((muted_means B.means).moment self.new) ((muted_means B.means).flash self.new).content) }
        ensures touches { Touches (muted_means B.means) no_page 0 0 1 self.old self.new }
        ensures counted { OnOk result (Rose ((muted_means B.means).counts self.old).barriers ((muted_means B.means).counts self.new).barriers) }
        ensures no_fault { OnOk result (((muted_means B.means).counts self.new).flash_faults ≡ ((muted_means B.means).counts self.old).flash_faults) }
        ensures cause { OnErr result (Rose ((muted_means B.means).counts self.old).flash_faults ((muted_means B.means).counts self.new).flash_faults) }
    {
        self.board.barrier()
    }

    fn send(&mut self, bytes: &[u8]) -> Result<(), Failed>
        ensures ok { OnOk result (TellsLink (muted_means B.means) self.old → (muted_means B.means).sent self.new ((muted_means B.means).moment self.new)
            ≡ (muted_means B.means).sent self.old ((muted_means B.means).moment self.old) ++ bytes.now) }
        ensures any_moment { TellsLink (muted_means B.means) self.old → SendsOnly (muted_means B.means) self.old self.new
            (GainsFront ((muted_means B.means).sent self.old ((muted_means B.means).moment self.old)) bytes.now) }
        ensures later { TellsLink (muted_means B.means) self.old → ((muted_means B.means).sent self.new ((muted_means B.means).moment self.new)
            ≡ (muted_means B.means).sent self.old ((muted_means B.means).moment self.old)) ⊎ ((muted_means B.means).moment self.old < (muted_means B.means).moment self.new) }
        ensures stays { TellsFlash (muted_means B.means) self.old → FlashStays (muted_means B.means) self.old self.new }
        ensures same { (muted_means B.means).device self.new ≡ (muted_means B.means).device self.old }
        ensures work { Sends 1 ((muted_means B.means).counts self.old) ((muted_means B.means).counts self.new) }
        ensures counted { OnOk result (Rose ((muted_means B.means).counts self.old).sends ((muted_means B.means).counts self.new).sends) }
        ensures no_fault { OnOk result (((muted_means B.means).counts self.new).link_faults ≡ ((muted_means B.means).counts self.old).link_faults) }
        ensures cause { OnErr result (Rose ((muted_means B.means).counts self.old).link_faults ((muted_means B.means).counts self.new).link_faults) }

        ensures uncalled { board_of self.new ≡ board_of self.old }
    {
        self.sends = self.sends.saturating_add(1);
        Ok(())
    }
}
