// A board whose link breaks within a send. It has the flash of a device in memory, and tells all that
// it does.
ghost use Rattle.std.specs.Prelude.{◌≡◌, ◌≤◌, ◌<◌, ◌+◌, ◌*◌, ◌++◌, [], if◌then◌else◌, length, IfOk, OnOk, OnErr};
ghost use Rattle.board.specs.Counts.{Rose};
ghost use Rattle.board.specs.Kinds.{each};
ghost use Rattle.board.specs.Memory.{planned_calls};
ghost use Rattle.trials.specs.Half.{half_of};

use board::{Board, Failed, MemBoard};
use std::alloc::{AllocError, Global};

/// A device in memory whose link sends half of the octets of one planned send.
#[derive(Drop)]
pub struct HalfBoard {
    board: MemBoard,
    link_faults: u64,
    made: u64,
    planned: Option<u64>,
    ghost unplanned: { planned_calls board ≡ each [] },
}

// What a send sends of the octets: half of them, rounded down, if the link breaks, and else all.
fn part_of(bytes: &[u8], breaks: bool) -> &[u8]
    ensures { result.now ≡ (if breaks then half_of bytes.now else bytes.now) }
{
    if breaks {
        &bytes[..bytes.len() / 2]
    } else {
        bytes
    }
}

impl HalfBoard {
    ghost use Rattle.std.specs.Prelude.{Some};
    ghost use Rattle.trials.specs.HalfBoard.{IsNewBoard, SameButPlan, is_starved, moment_of, planned_send, sent_at};

    /// A board of 16 to 512 erased blocks that has sent nothing, and of which no send is to fail.
    pub fn new(alloc: Global, blocks: u32) -> Result<HalfBoard, AllocError>
        requires least { 16 ≤ blocks }
        requires most { blocks ≤ 512 }
        ensures { IfOk result (λ board. IsNewBoard blocks board) }
    {
        Ok(HalfBoard {
            board: MemBoard::new(alloc, blocks)?,
            link_faults: 0,
            made: 0,
            planned: None,
        })
    }

    /// All octets that were sent.
    pub fn sent(&self) -> &[u8]
        ensures { result.now ≡ sent_at self.now (moment_of self.now) }
    {
        self.board.sent()
    }

    /// Whether a call has found no memory.
    pub fn starved(&self) -> bool
        ensures { result ≡ is_starved self.now }
    {
        self.board.starved()
    }

    /// From now on the send with that number sends half of its octets and fails, counted from 1 since
    /// the board was made, and no other.
    pub fn plan(&mut self, number: u64)
        ensures planned { planned_send self.new ≡ Some number }
        ensures same { SameButPlan self.old self.new }
    {
        self.planned = Some(number);
    }
}

impl Board for HalfBoard {
    ghost use Rattle.std.specs.Prelude.{◌⊎◌};
    ghost use Rattle.board.specs.Counts.{Sends};
    ghost use Rattle.board.specs.Flash.{Fails, IsClean, firm, only_page, pages_of_block, wiped, written};
    ghost use Rattle.board.specs.Laws.{content_pages, erased_blank, images_now};
    ghost use Rattle.board.specs.Meaning.{TellsFlash, TellsLink};
    ghost use Rattle.board.specs.Moments.{GainsFront, SendsOnly};
    ghost use Rattle.board.specs.Reads.{FlashStays, ReadsOnly};
    ghost use Rattle.board.specs.Touches.{Touches, no_page};
    ghost use Rattle.trials.specs.HalfBoard.{CountsSend, SendFails, SendSucceeds, counts_of, device_of, flash_of, half_means, image_at, moment_of, sent_at};

    ghost means = { half_means };

    ghost enough_blocks = { λ board. board.board.history.least };

    ghost few_blocks = { λ board. board.board.history.most };

    ghost content_pages = { λ board told. content_pages board.board.history };

    ghost erased_blank = { λ board p told erased. erased_blank board.board p erased };

    ghost images_now = { λ board image told left. images_now board.board image left };

    fn blocks(&self) -> u32 {
        self.board.blocks()
    }

    fn read_page(&mut self, block: u32, page: u32, into: &mut [u8]) -> Result<(), Failed>
        requires block { block < (device_of self.old).blocks }
        requires page { page < 256 }
        requires length { length into.old ≡ 256 }

        ensures read { OnOk result (TellsFlash half_means self.old
            → into.new ≡ (flash_of self.old).content (256 * block + page)) }
        ensures reads { ReadsOnly half_means 1 self.old self.new }
        ensures counted { OnOk result (Rose (counts_of self.old).reads (counts_of self.new).reads) }
        ensures no_fault { OnOk result ((counts_of self.new).flash_faults ≡ (counts_of self.old).flash_faults) }
        ensures cause { OnErr result (Rose (counts_of self.old).flash_faults (counts_of self.new).flash_faults) }
    {
        self.board.read_page(block, page, into)
    }

    fn program(&mut self, block: u32, page: u32, from: &[u8]) -> Result<(), Failed>
        requires block { block < (device_of self.old).blocks }
        requires page { page < 256 }
        requires length { length from.now ≡ 256 }
        requires clean { TellsFlash half_means self.old → IsClean (flash_of self.old) (256 * block + page) }

        ensures ok { OnOk result (TellsFlash half_means self.old → flash_of self.new
            ≡ written (only_page (256 * block + page)) (λ _. from.now) (flash_of self.old)) }
        ensures err { OnErr result (TellsFlash half_means self.old
            → Fails (only_page (256 * block + page)) (flash_of self.old) (flash_of self.new)) }
        ensures later { TellsFlash half_means self.old
            → (flash_of self.new ≡ flash_of self.old) ⊎ (moment_of self.old < moment_of self.new) }
        ensures seen { OnOk result (TellsFlash half_means self.old
            → image_at self.new (moment_of self.new) (flash_of self.new).content) }
        ensures touches { Touches half_means (only_page (256 * block + page)) 1 0 0 self.old self.new }
        ensures counted { OnOk result (Rose (counts_of self.old).programs (counts_of self.new).programs) }
        ensures no_fault { OnOk result ((counts_of self.new).flash_faults ≡ (counts_of self.old).flash_faults) }
        ensures cause { OnErr result (Rose (counts_of self.old).flash_faults (counts_of self.new).flash_faults) }
    {
        self.board.program(block, page, from)
    }

    fn erase(&mut self, block: u32) -> Result<(), Failed>
        requires { block < (device_of self.old).blocks }

        ensures ok { OnOk result (TellsFlash half_means self.old
            → flash_of self.new ≡ wiped (pages_of_block block) (flash_of self.old)) }
        ensures err { OnErr result (TellsFlash half_means self.old
            → Fails (pages_of_block block) (flash_of self.old) (flash_of self.new)) }
        ensures later { TellsFlash half_means self.old
            → (flash_of self.new ≡ flash_of self.old) ⊎ (moment_of self.old < moment_of self.new) }
        ensures seen { OnOk result (TellsFlash half_means self.old
            → image_at self.new (moment_of self.new) (flash_of self.new).content) }
        ensures touches { Touches half_means (pages_of_block block) 0 1 0 self.old self.new }
        ensures counted { OnOk result (Rose (counts_of self.old).erases (counts_of self.new).erases) }
        ensures no_fault { OnOk result ((counts_of self.new).flash_faults ≡ (counts_of self.old).flash_faults) }
        ensures cause { OnErr result (Rose (counts_of self.old).flash_faults (counts_of self.new).flash_faults) }
    {
        self.board.erase(block)
    }

    fn barrier(&mut self) -> Result<(), Failed>
        ensures ok { OnOk result (TellsFlash half_means self.old → flash_of self.new ≡ firm (flash_of self.old)) }
        ensures err { OnErr result (TellsFlash half_means self.old → flash_of self.new ≡ flash_of self.old) }
        ensures later { TellsFlash half_means self.old
            → (flash_of self.new ≡ flash_of self.old) ⊎ (moment_of self.old < moment_of self.new) }
        ensures seen { OnOk result (TellsFlash half_means self.old
            → image_at self.new (moment_of self.new) (flash_of self.new).content) }
        ensures touches { Touches half_means no_page 0 0 1 self.old self.new }
        ensures counted { OnOk result (Rose (counts_of self.old).barriers (counts_of self.new).barriers) }
        ensures no_fault { OnOk result ((counts_of self.new).flash_faults ≡ (counts_of self.old).flash_faults) }
        ensures cause { OnErr result (Rose (counts_of self.old).flash_faults (counts_of self.new).flash_faults) }
    {
        self.board.barrier()
    }

    fn send(&mut self, bytes: &[u8]) -> Result<(), Failed>
        ensures ok { OnOk result (TellsLink half_means self.old → sent_at self.new (moment_of self.new)
            ≡ sent_at self.old (moment_of self.old) ++ bytes.now) }
        ensures any_moment { TellsLink half_means self.old → SendsOnly half_means self.old self.new
            (GainsFront (sent_at self.old (moment_of self.old)) bytes.now) }
        ensures later { TellsLink half_means self.old → (sent_at self.new (moment_of self.new)
            ≡ sent_at self.old (moment_of self.old)) ⊎ (moment_of self.old < moment_of self.new) }
        ensures stays { TellsFlash half_means self.old → FlashStays half_means self.old self.new }
        ensures same { device_of self.new ≡ device_of self.old }
        ensures work { Sends 1 (counts_of self.old) (counts_of self.new) }
        ensures counted { OnOk result (Rose (counts_of self.old).sends (counts_of self.new).sends) }
        ensures no_fault { OnOk result ((counts_of self.new).link_faults ≡ (counts_of self.old).link_faults) }
        ensures cause { OnErr result (Rose (counts_of self.old).link_faults (counts_of self.new).link_faults) }

        // It fails where it is planned to, behind half of the octets, and else only for want of memory.
        ensures made { CountsSend self.old self.new }
        ensures done { OnOk result (SendSucceeds bytes.now self.old self.new) }
        ensures failed { OnErr result (SendFails bytes.now self.old self.new) }
    {
        self.made = self.made.saturating_add(1);
        let breaks = self.planned == Some(self.made);
        match self.board.send(part_of(bytes, breaks)) {
            Ok(()) if !breaks => Ok(()),
            _ => {
                self.link_faults = self.link_faults.saturating_add(1);
                Err(Failed)
            }
        }
    }
}
