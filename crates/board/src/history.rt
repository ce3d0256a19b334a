// What a board in memory began with, each step since, and what they made of it.
ghost use Rattle.std.specs.Prelude.{◌≡◌, ◌≤◌, ◌<◌, ◌+◌, ◌*◌, ◌++◌, ℕ, [], ◌∷◌, All, get_or, length, IfOk, OnOk, OnErr, true, false};
ghost use Rattle.std.proofs.Props.{props};
ghost use Rattle.board.specs.Flash.{Flash, IsContent, IsPage, blank};
ghost use Rattle.board.specs.History.{IsStep, end_of, first_flash, flash_after, flash_after_step, sent_by, sent_by_step};

use crate::cache::{blank_pages, copy_of, do_step};
use crate::step::{First, Step};
use std::alloc::{AllocError, Global};

/// What a board began with, and each step since.
#[derive(Drop)]
pub struct History {
    pub alloc: Global,
    pub blocks: u32,
    pub first: First,
    pub steps: Vec<Step>,
    pub pages: Vec<[u8; 256]>,
    pub sent: Vec<u8>,
    ghost least: { 16 ≤ blocks },
    ghost most: { blocks ≤ 512 },
    ghost first_fits: { IsContent blocks (first_flash first).content } by { Prim.hlevel props },
    ghost steps_fit: { All (IsStep (256 * blocks)) steps.items } by { Prim.hlevel props },
    ghost all_pages: { length pages.items ≡ 256 * blocks },
    ghost pages_are: { (p : ℕ) → p < 256 * blocks → get_or pages.items p [] ≡ (flash_after steps.items (first_flash first)).content p },
    ghost sent_is: { sent_by steps.items ≡ length sent.items },
}

// Keeps a step of the flash and does it, or for want of memory neither.
fn keep_step(
    steps: &mut Vec<Step>,
    pages: &mut Vec<[u8; 256]>,
    step: Step,
) -> Result<(), AllocError>
    requires { end_of step ≤ length pages.old.items }
    ensures count { length pages.new.items ≡ length pages.old.items }
    ensures ok { OnOk result (steps.new.items ≡ steps.old.items ++ step ∷ []) }
    ensures ok_pages { OnOk result ((flash : Flash) (p : ℕ) → get_or pages.old.items p [] ≡ flash.content p
        → get_or pages.new.items p [] ≡ (flash_after_step step flash).content p) }
    ensures err { OnErr result (steps.new.items ≡ steps.old.items) }
    ensures err_pages { OnErr result (pages.new.items ≡ pages.old.items) }
{
    let place = steps.len();
    steps.push(step)?;
    do_step(pages, &steps[place]);
    Ok(())
}

// Appends what was sent, and the step that sent it, or for want of memory neither.
fn keep_sent(steps: &mut Vec<Step>, sent: &mut Vec<u8>, bytes: &[u8]) -> Result<(), AllocError>
    ensures ok { OnOk result (steps.new.items ≡ steps.old.items ++ Step.Send (length bytes.now) ∷ []) }
    ensures ok_sent { OnOk result (sent.new.items ≡ sent.old.items ++ bytes.now) }
    ensures err { OnErr result (steps.new.items ≡ steps.old.items) }
    ensures err_sent { OnErr result (sent.new.items ≡ sent.old.items) }
{
    let before = steps.len();
    let length = bytes.len();
    steps.push(Step::Send { length })?;
    match sent.extend_from_slice(bytes) {
        Ok(()) => Ok(()),
        Err(error) => {
            steps.truncate(before);
            Err(error)
        }
    }
}

impl History {
    ghost use Rattle.board.specs.Kept.{Begins, Grew, Stayed};

    /// A history that begins with blank pages.
    pub fn blank(alloc: Global, blocks: u32) -> Result<History, AllocError>
        requires least { 16 ≤ blocks }
        requires most { blocks ≤ 512 }
        ensures { IfOk result (Begins blocks (λ p. blank) true) }
    {
        let pages = blank_pages(alloc, 256 * blocks as usize)?;
        Ok(History {
            alloc,
            blocks,
            first: First::Blank,
            steps: Vec::new(alloc),
            pages,
            sent: Vec::new(alloc),
        })
    }

    /// A history that begins with these pages, none of them erased.
    pub fn with_pages(
        alloc: Global,
        blocks: u32,
        pages: Vec<[u8; 256]>,
    ) -> Result<History, AllocError>
        requires least { 16 ≤ blocks }
        requires most { blocks ≤ 512 }
        requires count { length pages.items ≡ 256 * blocks }
        requires fit { All IsPage pages.items }
        ensures { IfOk result (Begins blocks (λ p. get_or pages.items p []) false) }
    {
        let first = copy_of(alloc, &pages)?;
        Ok(History {
            alloc,
            blocks,
            first: First::Pages(first),
            steps: Vec::new(alloc),
            pages,
            sent: Vec::new(alloc),
        })
    }

    /// Does a step of the flash, or for want of memory none.
    pub fn take_step(&mut self, step: Step) -> Result<(), AllocError>
        requires fits { IsStep (256 * self.old.blocks) step }
        requires quiet { sent_by_step step ≡ 0 }
        ensures ok { OnOk result (Grew step [] self.old self.new) }
        ensures err { OnErr result (Stayed self.old self.new) }
    {
        keep_step(&mut self.steps, &mut self.pages, step)
    }

    /// Sends octets, or for want of memory none.
    pub fn send(&mut self, bytes: &[u8]) -> Result<(), AllocError>
        ensures ok { OnOk result (Grew (Step.Send (length bytes.now)) bytes.now self.old self.new) }
        ensures err { OnErr result (Stayed self.old self.new) }
    {
        keep_sent(&mut self.steps, &mut self.sent, bytes)
    }
}
