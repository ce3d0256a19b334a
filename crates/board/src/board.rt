// A flash device with its link. What a board means is said by its ghost member.
ghost use Rattle.std.specs.Prelude.{◌≡◌, ◌≤◌, ◌<◌, ◌+◌, ◌*◌, ◌++◌, ◌⊎◌, ℕ, List, true, length, IsTrue, OnOk, OnErr};
ghost use Rattle.board.specs.Counts.{Rose, Sends};
ghost use Rattle.board.specs.Flash.{Fails, IsClean, IsContent, IsImage, blank, firm, only_page, pages_of_block, wiped, written};
ghost use Rattle.board.specs.Meaning.{BoardMeaning, TellsFlash, TellsLink};
ghost use Rattle.board.specs.Moments.{GainsFront, SendsOnly};
ghost use Rattle.board.specs.Reads.{FlashStays, ReadsOnly};
ghost use Rattle.board.specs.Touches.{Touches, no_page};

/// The outside did not do what it was asked.
#[derive(Clone, Copy, Debug, PartialEq, Eq)]
pub struct Failed;

/// A flash of 16 to 512 blocks of 256 pages of 256 octets, and the link on which octets are sent.
pub trait Board {
    /// What it means: device, flash, moment, images, sent and counts.
    ghost means: { BoardMeaning Self };

    /// How many blocks there are.
    fn blocks(&self) -> u32
        ensures { result ≡ (means.device self.now).blocks };

    /// Reads a page into 256 octets. After `Failed`, `into` holds any octets.
    fn read_page(&mut self, block: u32, page: u32, into: &mut [u8]) -> Result<(), Failed>
        requires block { block < (means.device self.old).blocks }
        requires page { page < 256 }
        requires length { length into.old ≡ 256 }

        ensures read { OnOk result (TellsFlash means self.old
            → into.new ≡ (means.flash self.old).content (256 * block + page)) }
        ensures reads { ReadsOnly means 1 self.old self.new }
        ensures counted { OnOk result (Rose (means.counts self.old).reads (means.counts self.new).reads) }
        ensures no_fault { OnOk result ((means.counts self.new).flash_faults ≡ (means.counts self.old).flash_faults) }
        ensures cause { OnErr result (Rose (means.counts self.old).flash_faults (means.counts self.new).flash_faults) };

    /// Programs a clean page with 256 octets. Until a barrier, a stop may leave anything in it.
    fn program(&mut self, block: u32, page: u32, from: &[u8]) -> Result<(), Failed>
        requires block { block < (means.device self.old).blocks }
        requires page { page < 256 }
        requires length { length from.now ≡ 256 }
        requires clean { TellsFlash means self.old → IsClean (means.flash self.old) (256 * block + page) }

        ensures ok { OnOk result (TellsFlash means self.old → means.flash self.new
            ≡ written (only_page (256 * block + page)) (λ _. from.now) (means.flash self.old)) }
        ensures err { OnErr result (TellsFlash means self.old
            → Fails (only_page (256 * block + page)) (means.flash self.old) (means.flash self.new)) }
        ensures later { TellsFlash means self.old
            → (means.flash self.new ≡ means.flash self.old) ⊎ (means.moment self.old < means.moment self.new) }
        ensures seen { OnOk result (TellsFlash means self.old
            → means.images self.new (means.moment self.new) (means.flash self.new).content) }
        ensures touches { Touches means (only_page (256 * block + page)) 1 0 0 self.old self.new }
        ensures counted { OnOk result (Rose (means.counts self.old).programs (means.counts self.new).programs) }
        ensures no_fault { OnOk result ((means.counts self.new).flash_faults ≡ (means.counts self.old).flash_faults) }
        ensures cause { OnErr result (Rose (means.counts self.old).flash_faults (means.counts self.new).flash_faults) };

    /// Erases a block. Until a barrier, a stop may leave anything in its pages.
    fn erase(&mut self, block: u32) -> Result<(), Failed>
        requires { block < (means.device self.old).blocks }

        ensures ok { OnOk result (TellsFlash means self.old
            → means.flash self.new ≡ wiped (pages_of_block block) (means.flash self.old)) }
        ensures err { OnErr result (TellsFlash means self.old
            → Fails (pages_of_block block) (means.flash self.old) (means.flash self.new)) }
        ensures later { TellsFlash means self.old
            → (means.flash self.new ≡ means.flash self.old) ⊎ (means.moment self.old < means.moment self.new) }
        ensures seen { OnOk result (TellsFlash means self.old
            → means.images self.new (means.moment self.new) (means.flash self.new).content) }
        ensures touches { Touches means (pages_of_block block) 0 1 0 self.old self.new }
        ensures counted { OnOk result (Rose (means.counts self.old).erases (means.counts self.new).erases) }
        ensures no_fault { OnOk result ((means.counts self.new).flash_faults ≡ (means.counts self.old).flash_faults) }
        ensures cause { OnErr result (Rose (means.counts self.old).flash_faults (means.counts self.new).flash_faults) };

    /// Makes all loose pages firm.
    fn barrier(&mut self) -> Result<(), Failed>
        ensures ok { OnOk result (TellsFlash means self.old → means.flash self.new ≡ firm (means.flash self.old)) }
        ensures err { OnErr result (TellsFlash means self.old → means.flash self.new ≡ means.flash self.old) }
        ensures later { TellsFlash means self.old
            → (means.flash self.new ≡ means.flash self.old) ⊎ (means.moment self.old < means.moment self.new) }
        ensures seen { OnOk result (TellsFlash means self.old
            → means.images self.new (means.moment self.new) (means.flash self.new).content) }
        ensures touches { Touches means no_page 0 0 1 self.old self.new }
        ensures counted { OnOk result (Rose (means.counts self.old).barriers (means.counts self.new).barriers) }
        ensures no_fault { OnOk result ((means.counts self.new).flash_faults ≡ (means.counts self.old).flash_faults) }
        ensures cause { OnErr result (Rose (means.counts self.old).flash_faults (means.counts self.new).flash_faults) };

    /// Sends octets. Inside the call, and after `Failed`, a prefix of them has been sent.
    fn send(&mut self, bytes: &[u8]) -> Result<(), Failed>
        ensures ok { OnOk result (TellsLink means self.old → means.sent self.new (means.moment self.new)
            ≡ means.sent self.old (means.moment self.old) ++ bytes.now) }
        ensures any_moment { TellsLink means self.old → SendsOnly means self.old self.new
            (GainsFront (means.sent self.old (means.moment self.old)) bytes.now) }
        ensures later { TellsLink means self.old → (means.sent self.new (means.moment self.new)
            ≡ means.sent self.old (means.moment self.old)) ⊎ (means.moment self.old < means.moment self.new) }
        ensures stays { TellsFlash means self.old → FlashStays means self.old self.new }
        ensures same { means.device self.new ≡ means.device self.old }
        ensures work { Sends 1 (means.counts self.old) (means.counts self.new) }
        ensures counted { OnOk result (Rose (means.counts self.old).sends (means.counts self.new).sends) }
        ensures no_fault { OnOk result ((means.counts self.new).link_faults ≡ (means.counts self.old).link_faults) }
        ensures cause { OnErr result (Rose (means.counts self.old).link_faults (means.counts self.new).link_faults) };

    ghost enough_blocks: { (board : Self) → 16 ≤ (means.device board).blocks };

    ghost few_blocks: { (board : Self) → (means.device board).blocks ≤ 512 };

    /// Each page of a content has 256 octets.
    ghost content_pages: { (board : Self) → TellsFlash means board
        → IsContent (means.device board).blocks (means.flash board).content };

    /// An erased page is blank.
    ghost erased_blank: { (board : Self) (p : ℕ) → TellsFlash means board
        → (means.flash board).erased p ≡ true → (means.flash board).content p ≡ blank };

    /// Each image that a stop leaves now is one by the flash as it is.
    ghost images_now: { (board : Self) (image : ℕ → List ℕ) → TellsFlash means board
        → means.images board (means.moment board) image
        → IsImage (means.device board).blocks (means.flash board) image };
}
