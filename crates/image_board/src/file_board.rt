// A file as the device, and a writer as its link.
ghost use Rattle.std.specs.Prelude.{◌≡◌, ◌≤◌, ◌<◌, ◌+◌, ◌*◌, ◌++◌, ◌⊎◌, true, length, is_err, is_ok, IsTrue, OnErr, OnOk};
ghost use Rattle.std.specs.Io.KnownBytes.{Appends};
ghost use Rattle.std.proofs.lemmas.Bool.{false≢true};
ghost use Rattle.board.specs.Counts.{Rose, Sends};
ghost use Rattle.board.specs.Flash.{Fails, IsClean, firm, only_page, pages_of_block, wiped, written};
ghost use Rattle.board.specs.Kinds.{one_more};
ghost use Rattle.board.specs.Meaning.{TellsFlash, TellsLink};
ghost use Rattle.board.specs.Moments.{GainsFront, SendsOnly};
ghost use Rattle.board.specs.Reads.{FlashStays, ReadsOnly};
ghost use Rattle.board.specs.Touches.{Touches, no_page};
ghost use Rattle.image_board.specs.Medium.{Erase, Read, Sync, Write};
ghost use Rattle.image_board.specs.Writing.{AppendsFront};

use crate::image::offset_of;
use crate::link::send_all;
use crate::medium::Medium;
use crate::tally::{Tally, fail, judge, raise};
use board::{Board, Failed};
use std::fs::File;
use std::io::Write;

/// A device in a file of 65,536 octets for each block, whose link is a writer. Another `Medium` may stand
/// in the file's place.
///
/// A barrier syncs the file's data. If a sync has failed, the system may have dropped what was written
/// before it, and may call the next sync a success. So from then on each program, erase and barrier
/// returns `Failed`, with no call of the system.
#[derive(Drop)]
pub struct FileBoard<W: Write, M: Medium = File> {
    medium: M,
    blocks: u32,
    out: W,
    is_broken: bool,
    tally: Tally,
    ghost least: { 16 ≤ blocks },
    ghost most: { blocks ≤ 512 },
}

impl<W: Write, M: Medium> FileBoard<W, M> {
    ghost use Rattle.image_board.specs.FileBoard.{IsNewBoard, is_broken};

    /// The device in a file, or on another medium, of 16 to 512 blocks, each with its 65,536 octets, that
    /// sends by `out`.
    pub fn new(medium: M, blocks: u32, out: W) -> FileBoard<W, M>
        requires least { 16 ≤ blocks }
        requires most { blocks ≤ 512 }
        ensures { IsNewBoard medium blocks out result }
    {
        FileBoard {
            medium,
            blocks,
            out,
            is_broken: false,
            tally: Tally::new(),
        }
    }

    /// Whether a barrier has failed, so that nothing that was written is believed.
    pub fn is_broken(&self) -> bool
        ensures { result ≡ is_broken self.now }
    {
        self.is_broken
    }
}

impl<W: Write, M: Medium> Board for FileBoard<W, M> {
    ghost use Rattle.image_board.specs.FileBoard.{Asks, AsksUnbroken, KeepsOthers, counts_of, device_of, file_means, is_broken, link_of, medium_of};

    ghost means = { file_means };

    ghost enough_blocks = { λ board. board.least };

    ghost few_blocks = { λ board. board.most };

    ghost content_pages = { λ board told. absurd (false≢true told) };

    ghost erased_blank = { λ board p told erased. absurd (false≢true told) };

    ghost images_now = { λ board image told left. absurd left };

    fn blocks(&self) -> u32 {
        self.blocks
    }

    fn read_page(&mut self, block: u32, page: u32, into: &mut [u8]) -> Result<(), Failed>
        requires block { block < (device_of self.old).blocks }
        requires page { page < 256 }
        requires length { length into.old ≡ 256 }

        ensures read { OnOk result (TellsFlash file_means self.old
            → into.new ≡ (file_means.flash self.old).content (256 * block + page)) }
        ensures reads { ReadsOnly file_means 1 self.old self.new }
        ensures counted { OnOk result (Rose (counts_of self.old).reads (counts_of self.new).reads) }
        ensures no_fault { OnOk result ((counts_of self.new).flash_faults ≡ (counts_of self.old).flash_faults) }
        ensures cause { OnErr result (Rose (counts_of self.old).flash_faults (counts_of self.new).flash_faults) }

        ensures made { (counts_of self.new).reads ≡ one_more (counts_of self.old).reads }
        ensures fault { OnErr result ((counts_of self.new).flash_faults ≡ one_more (counts_of self.old).flash_faults) }
        ensures asked { Asks (Read ((block * 256 + page) * 256)) (is_ok result) self.old self.new }
        ensures keeps { KeepsOthers self.old self.new }
    {
        raise(&mut self.tally.reads);
        let outcome = self.medium.read_at_offset(offset_of(block, page), into);
        judge(outcome, &mut self.tally.flash_faults)
    }

    fn program(&mut self, block: u32, page: u32, from: &[u8]) -> Result<(), Failed>
        requires block { block < (device_of self.old).blocks }
        requires page { page < 256 }
        requires length { length from.now ≡ 256 }
        requires clean { TellsFlash file_means self.old → IsClean (file_means.flash self.old) (256 * block + page) }

        ensures ok { OnOk result (TellsFlash file_means self.old → file_means.flash self.new
            ≡ written (only_page (256 * block + page)) (λ _. from.now) (file_means.flash self.old)) }
        ensures err { OnErr result (TellsFlash file_means self.old
            → Fails (only_page (256 * block + page)) (file_means.flash self.old) (file_means.flash self.new)) }
        ensures later { TellsFlash file_means self.old
            → (file_means.flash self.new ≡ file_means.flash self.old)
            ⊎ (file_means.moment self.old < file_means.moment self.new) }
        ensures seen { OnOk result (TellsFlash file_means self.old
            → file_means.images self.new (file_means.moment self.new) (file_means.flash self.new).content) }
        ensures touches { Touches file_means (only_page (256 * block + page)) 1 0 0 self.old self.new }
        ensures counted { OnOk result (Rose (counts_of self.old).programs (counts_of self.new).programs) }
        ensures no_fault { OnOk result ((counts_of self.new).flash_faults ≡ (counts_of self.old).flash_faults) }
        ensures cause { OnErr result (Rose (counts_of self.old).flash_faults (counts_of self.new).flash_faults) }

        ensures made { (counts_of self.new).programs ≡ one_more (counts_of self.old).programs }
        ensures fault { OnErr result ((counts_of self.new).flash_faults ≡ one_more (counts_of self.old).flash_faults) }
        ensures asked { AsksUnbroken (Write ((block * 256 + page) * 256) from.now) (is_ok result) self.old self.new }
        ensures keeps { KeepsOthers self.old self.new }
    {
        raise(&mut self.tally.programs);
        if self.is_broken {
            return fail(&mut self.tally.flash_faults);
        }
        let outcome = self.medium.write_at_offset(offset_of(block, page), from);
        judge(outcome, &mut self.tally.flash_faults)
    }

    fn erase(&mut self, block: u32) -> Result<(), Failed>
        requires { block < (device_of self.old).blocks }

        ensures ok { OnOk result (TellsFlash file_means self.old
            → file_means.flash self.new ≡ wiped (pages_of_block block) (file_means.flash self.old)) }
        ensures err { OnErr result (TellsFlash file_means self.old
            → Fails (pages_of_block block) (file_means.flash self.old) (file_means.flash self.new)) }
        ensures later { TellsFlash file_means self.old
            → (file_means.flash self.new ≡ file_means.flash self.old)
            ⊎ (file_means.moment self.old < file_means.moment self.new) }
        ensures seen { OnOk result (TellsFlash file_means self.old
            → file_means.images self.new (file_means.moment self.new) (file_means.flash self.new).content) }
        ensures touches { Touches file_means (pages_of_block block) 0 1 0 self.old self.new }
        ensures counted { OnOk result (Rose (counts_of self.old).erases (counts_of self.new).erases) }
        ensures no_fault { OnOk result ((counts_of self.new).flash_faults ≡ (counts_of self.old).flash_faults) }
        ensures cause { OnErr result (Rose (counts_of self.old).flash_faults (counts_of self.new).flash_faults) }

        ensures made { (counts_of self.new).erases ≡ one_more (counts_of self.old).erases }
        ensures fault { OnErr result ((counts_of self.new).flash_faults ≡ one_more (counts_of self.old).flash_faults) }
        ensures asked { AsksUnbroken (Erase (block * 65536)) (is_ok result) self.old self.new }
        ensures keeps { KeepsOthers self.old self.new }
    {
        raise(&mut self.tally.erases);
        if self.is_broken {
            return fail(&mut self.tally.flash_faults);
        }
        let outcome = self.medium.erase_at_offset(offset_of(block, 0));
        judge(outcome, &mut self.tally.flash_faults)
    }

    fn barrier(&mut self) -> Result<(), Failed>
        ensures ok { OnOk result (TellsFlash file_means self.old
            → file_means.flash self.new ≡ firm (file_means.flash self.old)) }
        ensures err { OnErr result (TellsFlash file_means self.old
            → file_means.flash self.new ≡ file_means.flash self.old) }
        ensures later { TellsFlash file_means self.old
            → (file_means.flash self.new ≡ file_means.flash self.old)
            ⊎ (file_means.moment self.old < file_means.moment self.new) }
        ensures seen { OnOk result (TellsFlash file_means self.old
            → file_means.images self.new (file_means.moment self.new) (file_means.flash self.new).content) }
        ensures touches { Touches file_means no_page 0 0 1 self.old self.new }
        ensures counted { OnOk result (Rose (counts_of self.old).barriers (counts_of self.new).barriers) }
        ensures no_fault { OnOk result ((counts_of self.new).flash_faults ≡ (counts_of self.old).flash_faults) }
        ensures cause { OnErr result (Rose (counts_of self.old).flash_faults (counts_of self.new).flash_faults) }

        ensures made { (counts_of self.new).barriers ≡ one_more (counts_of self.old).barriers }
        ensures fault { OnErr result ((counts_of self.new).flash_faults ≡ one_more (counts_of self.old).flash_faults) }
        ensures asked { AsksUnbroken Sync (is_ok result) self.old self.new }
        ensures broken { is_broken self.new ≡ is_err result }
        ensures unsent { link_of self.new ≡ link_of self.old }
    {
        raise(&mut self.tally.barriers);
        if self.is_broken {
            return fail(&mut self.tally.flash_faults);
        }
        let outcome = judge(self.medium.sync(), &mut self.tally.flash_faults);
        self.is_broken = outcome.is_err();
        outcome
    }

    fn send(&mut self, bytes: &[u8]) -> Result<(), Failed>
        ensures ok { OnOk result (TellsLink file_means self.old → file_means.sent self.new (file_means.moment self.new)
            ≡ file_means.sent self.old (file_means.moment self.old) ++ bytes.now) }
        ensures any_moment { TellsLink file_means self.old → SendsOnly file_means self.old self.new
            (GainsFront (file_means.sent self.old (file_means.moment self.old)) bytes.now) }
        ensures later { TellsLink file_means self.old → (file_means.sent self.new (file_means.moment self.new)
            ≡ file_means.sent self.old (file_means.moment self.old))
            ⊎ (file_means.moment self.old < file_means.moment self.new) }
        ensures stays { TellsFlash file_means self.old → FlashStays file_means self.old self.new }
        ensures same { device_of self.new ≡ device_of self.old }
        ensures work { Sends 1 (counts_of self.old) (counts_of self.new) }
        ensures counted { OnOk result (Rose (counts_of self.old).sends (counts_of self.new).sends) }
        ensures no_fault { OnOk result ((counts_of self.new).link_faults ≡ (counts_of self.old).link_faults) }
        ensures cause { OnErr result (Rose (counts_of self.old).link_faults (counts_of self.new).link_faults) }

        // What the writer gains, if its octets are observable.
        ensures written { OnOk result (Appends (W.contents (link_of self.old)) (W.contents (link_of self.new)) bytes.now) }
        ensures front { OnErr result
            (AppendsFront (W.contents (link_of self.old)) (W.contents (link_of self.new)) bytes.now) }
        ensures fault { OnErr result ((counts_of self.new).link_faults ≡ one_more (counts_of self.old).link_faults) }
        ensures unasked { medium_of self.new ≡ medium_of self.old }
        ensures broken { is_broken self.new ≡ is_broken self.old }
    {
        raise(&mut self.tally.sends);
        let outcome = send_all(&mut self.out, bytes);
        judge(outcome, &mut self.tally.link_faults)
    }
}
