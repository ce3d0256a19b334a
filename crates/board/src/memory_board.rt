// How a board in memory does what a board is asked, and fails where it was planned to.
ghost use Rattle.std.specs.Prelude.{◌≡◌, ◌≤◌, ◌<◌, ◌+◌, ◌*◌, ◌++◌, ◌⊎◌, ℕ, [], length, IsTrue, OnOk, OnErr};
ghost use Rattle.board.specs.Counts.{Rose, Sends};
ghost use Rattle.board.specs.Flash.{Fails, IsClean, firm, only_page, pages_of_block, wiped, written};
ghost use Rattle.board.specs.History.{IsStep, sent_by_step};
ghost use Rattle.board.specs.Kept.{Grew, Stayed};
ghost use Rattle.board.specs.Kinds.{one_more};
ghost use Rattle.board.specs.Meaning.{TellsFlash, TellsLink};
ghost use Rattle.board.specs.Moments.{GainsFront, SendsOnly};
ghost use Rattle.board.specs.Reads.{FlashStays, ReadsOnly};
ghost use Rattle.board.specs.Touches.{Touches, no_page};

use crate::board::{Board, Failed};
use crate::cache::page_of;
use crate::calls::CallKind;
use crate::history::History;
use crate::memory::MemBoard;
use crate::step::Step;

// Counts a fault.
fn raise(faults: &mut u64)
    ensures exact { faults.new ≡ one_more faults.old }
    ensures rises { faults.old ≤ faults.new }
    ensures cause { Rose faults.old faults.new }
{
    *faults = faults.saturating_add(1);
}

// Counts a fault for want of memory.
fn starve(faults: &mut u64, starved: &mut bool)
    ensures exact { faults.new ≡ one_more faults.old }
    ensures rises { faults.old ≤ faults.new }
    ensures cause { Rose faults.old faults.new }
    ensures starved { IsTrue starved.new }
{
    *starved = true;
    raise(faults);
}

// Does a step. Where there is no memory for it, that is a fault.
fn keep(
    history: &mut History,
    step: Step,
    faults: &mut u64,
    starved: &mut bool,
) -> Result<(), Failed>
    requires fits { IsStep (256 * history.old.blocks) step }
    requires quiet { sent_by_step step ≡ 0 }
    ensures ok { OnOk result (Grew step [] history.old history.new) }
    ensures ok_faults { OnOk result (faults.new ≡ faults.old) }
    ensures ok_starved { OnOk result (starved.new ≡ starved.old) }
    ensures err { OnErr result (Stayed history.old history.new) }
    ensures err_faults { OnErr result (faults.new ≡ one_more faults.old) }
    ensures err_starved { OnErr result (IsTrue starved.new) }
    ensures rises { faults.old ≤ faults.new }
    ensures cause { OnErr result (Rose faults.old faults.new) }
{
    match history.take_step(step) {
        Ok(()) => Ok(()),
        Err(_) => {
            starve(faults, starved);
            Err(Failed)
        }
    }
}

// Does the step of a call that was planned to fail, where there is memory for it.
fn tear(history: &mut History, step: Step, faults: &mut u64, starved: &mut bool)
    requires fits { IsStep (256 * history.old.blocks) step }
    requires quiet { sent_by_step step ≡ 0 }
    ensures torn { (Grew step [] history.old history.new × (starved.new ≡ starved.old))
        ⊎ (Stayed history.old history.new × IsTrue starved.new) }
    ensures faults { faults.new ≡ one_more faults.old }
    ensures rises { faults.old ≤ faults.new }
    ensures cause { Rose faults.old faults.new }
{
    if history.take_step(step).is_err() {
        *starved = true;
    }
    raise(faults);
}

impl Board for MemBoard {
    ghost use Rattle.board.specs.Laws.{content_pages, erased_blank, images_now};
    ghost use Rattle.board.specs.Memory.{FailsPlanned, FailsQuietly, FailsTorn, MakesCall, Succeeds, counts_of, device_of, flash_of, image_at, memory_means, moment_of, sent_at};

    ghost means = { memory_means };

    ghost enough_blocks = { λ board. board.history.least };

    ghost few_blocks = { λ board. board.history.most };

    ghost content_pages = { λ board told. content_pages board.history };

    ghost erased_blank = { λ board p told erased. erased_blank board p erased };

    ghost images_now = { λ board image told left. images_now board image left };

    fn blocks(&self) -> u32 {
        self.history.blocks
    }

    fn read_page(&mut self, block: u32, page: u32, into: &mut [u8]) -> Result<(), Failed>
        requires block { block < (device_of self.old).blocks }
        requires page { page < 256 }
        requires length { length into.old ≡ 256 }

        ensures read { OnOk result (TellsFlash memory_means self.old
            → into.new ≡ (flash_of self.old).content (256 * block + page)) }
        ensures reads { ReadsOnly memory_means 1 self.old self.new }
        ensures counted { OnOk result (Rose (counts_of self.old).reads (counts_of self.new).reads) }
        ensures no_fault { OnOk result ((counts_of self.new).flash_faults ≡ (counts_of self.old).flash_faults) }
        ensures cause { OnErr result (Rose (counts_of self.old).flash_faults (counts_of self.new).flash_faults) }

        // It fails exactly where it is planned to.
        ensures made { MakesCall CallKind.Read self.old self.new }
        ensures done { OnOk result (Succeeds CallKind.Read 0 self.old self.new) }
        ensures fault { OnErr result ((counts_of self.new).flash_faults ≡ one_more (counts_of self.old).flash_faults) }
        ensures failed { OnErr result (FailsPlanned CallKind.Read 0 (λ flash. flash) self.old self.new) }
    {
        if self.calls.fails_next(CallKind::Read) {
            raise(&mut self.flash_faults);
            return Err(Failed);
        }
        into.copy_from_slice(&self.history.pages[(256 * block + page) as usize]);
        Ok(())
    }

    fn program(&mut self, block: u32, page: u32, from: &[u8]) -> Result<(), Failed>
        requires block { block < (device_of self.old).blocks }
        requires page { page < 256 }
        requires length { length from.now ≡ 256 }
        requires clean { TellsFlash memory_means self.old → IsClean (flash_of self.old) (256 * block + page) }

        ensures ok { OnOk result (TellsFlash memory_means self.old → flash_of self.new
            ≡ written (only_page (256 * block + page)) (λ _. from.now) (flash_of self.old)) }
        ensures err { OnErr result (TellsFlash memory_means self.old
            → Fails (only_page (256 * block + page)) (flash_of self.old) (flash_of self.new)) }
        ensures later { TellsFlash memory_means self.old
            → (flash_of self.new ≡ flash_of self.old) ⊎ (moment_of self.old < moment_of self.new) }
        ensures seen { OnOk result (TellsFlash memory_means self.old
            → image_at self.new (moment_of self.new) (flash_of self.new).content) }
        ensures touches { Touches memory_means (only_page (256 * block + page)) 1 0 0 self.old self.new }
        ensures counted { OnOk result (Rose (counts_of self.old).programs (counts_of self.new).programs) }
        ensures no_fault { OnOk result ((counts_of self.new).flash_faults ≡ (counts_of self.old).flash_faults) }
        ensures cause { OnErr result (Rose (counts_of self.old).flash_faults (counts_of self.new).flash_faults) }

        // It fails where it is planned to, and else only for want of memory.
        ensures made { MakesCall CallKind.Program self.old self.new }
        ensures done { OnOk result (Succeeds CallKind.Program 1 self.old self.new) }
        ensures fault { OnErr result ((counts_of self.new).flash_faults ≡ one_more (counts_of self.old).flash_faults) }
        ensures failed { OnErr result (FailsTorn CallKind.Program (only_page (256 * block + page)) self.old self.new) }
    {
        let place = 256 * block + page;
        if self.calls.fails_next(CallKind::Program) {
            tear(
                &mut self.history,
                Step::TornProgram { place },
                &mut self.flash_faults,
                &mut self.starved,
            );
            return Err(Failed);
        }
        let Ok(octets) = Box::new(self.history.alloc, page_of(from)) else {
            starve(&mut self.flash_faults, &mut self.starved);
            return Err(Failed);
        };
        keep(
            &mut self.history,
            Step::Program { place, octets },
            &mut self.flash_faults,
            &mut self.starved,
        )
    }

    fn erase(&mut self, block: u32) -> Result<(), Failed>
        requires { block < (device_of self.old).blocks }

        ensures ok { OnOk result (TellsFlash memory_means self.old
            → flash_of self.new ≡ wiped (pages_of_block block) (flash_of self.old)) }
        ensures err { OnErr result (TellsFlash memory_means self.old
            → Fails (pages_of_block block) (flash_of self.old) (flash_of self.new)) }
        ensures later { TellsFlash memory_means self.old
            → (flash_of self.new ≡ flash_of self.old) ⊎ (moment_of self.old < moment_of self.new) }
        ensures seen { OnOk result (TellsFlash memory_means self.old
            → image_at self.new (moment_of self.new) (flash_of self.new).content) }
        ensures touches { Touches memory_means (pages_of_block block) 0 1 0 self.old self.new }
        ensures counted { OnOk result (Rose (counts_of self.old).erases (counts_of self.new).erases) }
        ensures no_fault { OnOk result ((counts_of self.new).flash_faults ≡ (counts_of self.old).flash_faults) }
        ensures cause { OnErr result (Rose (counts_of self.old).flash_faults (counts_of self.new).flash_faults) }

        // It fails where it is planned to, and else only for want of memory.
        ensures made { MakesCall CallKind.Erase self.old self.new }
        ensures done { OnOk result (Succeeds CallKind.Erase 1 self.old self.new) }
        ensures fault { OnErr result ((counts_of self.new).flash_faults ≡ one_more (counts_of self.old).flash_faults) }
        ensures failed { OnErr result (FailsTorn CallKind.Erase (pages_of_block block) self.old self.new) }
    {
        if self.calls.fails_next(CallKind::Erase) {
            tear(
                &mut self.history,
                Step::TornErase { block },
                &mut self.flash_faults,
                &mut self.starved,
            );
            return Err(Failed);
        }
        keep(
            &mut self.history,
            Step::Erase { block },
            &mut self.flash_faults,
            &mut self.starved,
        )
    }

    fn barrier(&mut self) -> Result<(), Failed>
        ensures ok { OnOk result (TellsFlash memory_means self.old → flash_of self.new ≡ firm (flash_of self.old)) }
        ensures err { OnErr result (TellsFlash memory_means self.old → flash_of self.new ≡ flash_of self.old) }
        ensures later { TellsFlash memory_means self.old
            → (flash_of self.new ≡ flash_of self.old) ⊎ (moment_of self.old < moment_of self.new) }
        ensures seen { OnOk result (TellsFlash memory_means self.old
            → image_at self.new (moment_of self.new) (flash_of self.new).content) }
        ensures touches { Touches memory_means no_page 0 0 1 self.old self.new }
        ensures counted { OnOk result (Rose (counts_of self.old).barriers (counts_of self.new).barriers) }
        ensures no_fault { OnOk result ((counts_of self.new).flash_faults ≡ (counts_of self.old).flash_faults) }
        ensures cause { OnErr result (Rose (counts_of self.old).flash_faults (counts_of self.new).flash_faults) }

        // It fails where it is planned to, and else only for want of memory.
        ensures made { MakesCall CallKind.Barrier self.old self.new }
        ensures done { OnOk result (Succeeds CallKind.Barrier 1 self.old self.new) }
        ensures fault { OnErr result ((counts_of self.new).flash_faults ≡ one_more (counts_of self.old).flash_faults) }
        ensures failed { OnErr result (FailsQuietly CallKind.Barrier self.old self.new) }
    {
        if self.calls.fails_next(CallKind::Barrier) {
            raise(&mut self.flash_faults);
            return Err(Failed);
        }
        keep(
            &mut self.history,
            Step::Barrier,
            &mut self.flash_faults,
            &mut self.starved,
        )
    }

    fn send(&mut self, bytes: &[u8]) -> Result<(), Failed>
        ensures ok { OnOk result (TellsLink memory_means self.old → sent_at self.new (moment_of self.new)
            ≡ sent_at self.old (moment_of self.old) ++ bytes.now) }
        ensures any_moment { TellsLink memory_means self.old → SendsOnly memory_means self.old self.new
            (GainsFront (sent_at self.old (moment_of self.old)) bytes.now) }
        ensures later { TellsLink memory_means self.old → (sent_at self.new (moment_of self.new)
            ≡ sent_at self.old (moment_of self.old)) ⊎ (moment_of self.old < moment_of self.new) }
        ensures stays { TellsFlash memory_means self.old → FlashStays memory_means self.old self.new }
        ensures same { device_of self.new ≡ device_of self.old }
        ensures work { Sends 1 (counts_of self.old) (counts_of self.new) }
        ensures counted { OnOk result (Rose (counts_of self.old).sends (counts_of self.new).sends) }
        ensures no_fault { OnOk result ((counts_of self.new).link_faults ≡ (counts_of self.old).link_faults) }
        ensures cause { OnErr result (Rose (counts_of self.old).link_faults (counts_of self.new).link_faults) }

        // It fails where it is planned to, and else only for want of memory.
        ensures made { MakesCall CallKind.Send self.old self.new }
        ensures done { OnOk result (Succeeds CallKind.Send 1 self.old self.new) }
        ensures fault { OnErr result ((counts_of self.new).link_faults ≡ one_more (counts_of self.old).link_faults) }
        ensures failed { OnErr result (FailsQuietly CallKind.Send self.old self.new) }
    {
        if self.calls.fails_next(CallKind::Send) {
            raise(&mut self.link_faults);
            return Err(Failed);
        }
        match self.history.send(bytes) {
            Ok(()) => Ok(()),
            Err(_) => {
                starve(&mut self.link_faults, &mut self.starved);
                Err(Failed)
            }
        }
    }
}
