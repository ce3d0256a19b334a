// What a stop at a moment leaves of a board in memory.
ghost use Rattle.std.specs.Prelude.{◌≡◌, ◌≤◌, ◌<◌, ◌+◌, ◌*◌, ℕ, Bool, List, [], true, false, All, get_or, length, take, IfOk};
ghost use Rattle.board.specs.Flash.{Flash, IsPage};
ghost use Rattle.board.specs.History.{end_of, first_flash, flash_after, flash_after_step};
ghost use Rattle.board.specs.Stopped.{HasPages, Shows, filled, firm_after, firm_after_step, stopped};

use crate::cache::{blank_pages, copy_of, do_step, page_of, put};
use crate::history::History;
use crate::memory::MemBoard;
use crate::step::{First, Step};
use std::alloc::{AllocError, Global};

/// What a stop leaves in the pages that are loose.
#[derive(Clone, Copy, Debug, PartialEq, Eq)]
pub enum Torn {
    /// What they hold at that moment.
    Done,
    /// What they held when they were last firm.
    Undone,
    /// This octet throughout.
    Fill(u8),
}

/// The pages after some of the steps: what they hold, what they held when they were last firm, and
/// whether they are loose.
#[derive(Drop)]
pub struct Walk {
    pub pages: Vec<[u8; 256]>,
    pub firm: Vec<[u8; 256]>,
    pub loose: Vec<bool>,
}

fn first_pages(alloc: Global, first: &First, count: usize) -> Result<Vec<[u8; 256]>, AllocError>
    requires { (p : ℕ) → p < count → IsPage ((first_flash first.now).content p) }
    ensures count { IfOk result (λ pages. count ≤ length pages.items) }
    ensures pages { IfOk result (λ pages. (p : ℕ) → p < count → get_or pages.items p [] ≡ (first_flash first.now).content p) }
{
    match first {
        First::Blank => blank_pages(alloc, count),
        First::Pages(pages) => copy_of(alloc, pages),
    }
}

fn set_mark(loose: &mut Vec<bool>, place: usize, mark: bool)
    requires { place < length loose.old.items }
    ensures count { length loose.new.items ≡ length loose.old.items }
    ensures mark { get_or loose.new.items place false ≡ mark }
    ensures others { (p : ℕ) → (p ≡ place → ⊥) → get_or loose.new.items p false ≡ get_or loose.old.items p false }
{
    loose[place] = mark;
}

// Makes the 256 pages from this one on loose.
fn loosen(loose: &mut Vec<bool>, first: usize)
    requires { first + 256 ≤ length loose.old.items }
    ensures count { length loose.new.items ≡ length loose.old.items }
    ensures marked { (p : ℕ) → first ≤ p → p < first + 256 → get_or loose.new.items p false ≡ true }
    ensures below { (p : ℕ) → p < first → get_or loose.new.items p false ≡ get_or loose.old.items p false }
    ensures above { (p : ℕ) → first + 256 ≤ p → get_or loose.new.items p false ≡ get_or loose.old.items p false }
{
    for page in first..first + 256 {
        set_mark(loose, page, true);
    }
}

// Makes all pages firm, as they are now.
fn settle(now: &Vec<[u8; 256]>, firm: &mut Vec<[u8; 256]>, loose: &mut Vec<bool>)
    requires now { length loose.old.items ≤ length now.now.items }
    requires firm { length loose.old.items ≤ length firm.old.items }
    ensures count { length loose.new.items ≡ length loose.old.items }
    ensures count_firm { length firm.new.items ≡ length firm.old.items }
    ensures loose { (p : ℕ) → p < length loose.old.items → get_or loose.new.items p false ≡ false }
    ensures kept { (p : ℕ) → p < length loose.old.items → get_or loose.old.items p false ≡ false → get_or firm.new.items p [] ≡ get_or firm.old.items p [] }
    ensures settled { (p : ℕ) → p < length loose.old.items → get_or loose.old.items p false ≡ true → get_or firm.new.items p [] ≡ get_or now.now.items p [] }
{
    for page in 0..loose.len() {
        if loose[page] {
            put(firm, page, now[page]);
            set_mark(loose, page, false);
        }
    }
}

// Does a step, once its pages are marked.
fn step_on(walk: &mut Walk, step: &Step)
    requires pages { HasPages (length walk.old.loose.items) walk.old }
    requires places { end_of step.now ≤ length walk.old.loose.items }
    ensures pages { HasPages (length walk.old.loose.items) walk.new }
    ensures shows { (flash : Flash) (firm : ℕ → List ℕ) (p : ℕ) → p < length walk.old.loose.items → Shows flash firm walk.old p
        → Shows (flash_after_step step.now flash) (firm_after_step step.now flash firm) walk.new p }
{
    match step {
        Step::Program { place, .. } | Step::TornProgram { place } => {
            set_mark(&mut walk.loose, *place as usize, true);
        }
        Step::Erase { block } | Step::TornErase { block } => {
            loosen(&mut walk.loose, 256 * *block as usize);
        }
        Step::Barrier => settle(&walk.pages, &mut walk.firm, &mut walk.loose),
        Step::Send { .. } => {}
    }
    do_step(&mut walk.pages, step);
}

// The pages after so many steps.
fn walk_to(alloc: Global, history: &History, moment: usize) -> Result<Walk, AllocError>
    requires { moment ≤ length history.now.steps.items }
    ensures pages { IfOk result (λ walk. HasPages (256 * history.now.blocks) walk) }
    ensures shows { IfOk result (λ walk. (p : ℕ) → p < 256 * history.now.blocks → Shows
        (flash_after (take moment history.now.steps.items) (first_flash history.now.first))
        (firm_after (take moment history.now.steps.items) (first_flash history.now.first)) walk p) }
{
    let count = 256 * history.blocks as usize;
    let pages = first_pages(alloc, &history.first, count)?;
    let firm = copy_of(alloc, &pages)?;
    let loose = vec![in alloc; false; count]?;
    let mut walk = Walk { pages, firm, loose };
    for index in 0..moment {
        step_on(&mut walk, &history.steps[index]);
    }
    Ok(walk)
}

fn filled_page(octet: u8) -> [u8; 256]
    ensures page { IsPage result }
    ensures same { result ≡ filled octet }
{
    page_of(&[octet; 256])
}

fn page_left(walk: &Walk, page: usize, torn: Torn) -> [u8; 256]
    requires pages { HasPages (length walk.now.loose.items) walk.now }
    requires page { page < length walk.now.loose.items }
    ensures page { IsPage result }
    ensures left { (flash : Flash) (firm : ℕ → List ℕ) → Shows flash firm walk.now page → result ≡ stopped torn flash firm page }
{
    if !walk.loose[page] {
        return page_of(&walk.pages[page]);
    }
    match torn {
        Torn::Done => page_of(&walk.pages[page]),
        Torn::Undone => page_of(&walk.firm[page]),
        Torn::Fill(octet) => filled_page(octet),
    }
}

fn pages_left(alloc: Global, walk: &Walk, torn: Torn) -> Result<Vec<[u8; 256]>, AllocError>
    requires { HasPages (length walk.now.loose.items) walk.now }
    ensures count { IfOk result (λ pages. length pages.items ≡ length walk.now.loose.items) }
    ensures fit { IfOk result (λ pages. All IsPage pages.items) }
    ensures left { IfOk result (λ pages. (flash : Flash) (firm : ℕ → List ℕ) (p : ℕ) → p < length walk.now.loose.items
        → Shows flash firm walk.now p → get_or pages.items p [] ≡ stopped torn flash firm p) }
{
    let mut pages = Vec::new(alloc);
    for page in 0..walk.loose.len() {
        pages.push(page_left(walk, page, torn))?;
    }
    Ok(pages)
}

impl MemBoard {
    ghost use Rattle.board.specs.Memory.{IsNewBoard, device_of, firm_at, flash_at, flash_of, image_at, moment_of};

    /// The board that a stop at a moment leaves, as it is when it is next found: loose pages hold what
    /// `torn` says, and all others what they held. All pages are firm then and none is clean, nothing
    /// has been sent, and no call is to fail.
    pub fn after_stop(&self, alloc: Global, moment: u64, torn: Torn) -> Result<MemBoard, AllocError>
        requires { moment ≤ moment_of self.now }
        ensures left { IfOk result (IsNewBoard (device_of self.now).blocks (stopped torn (flash_at self.now moment) (firm_at self.now moment)) false) }
        ensures image { IfOk result (λ board. image_at self.now moment (flash_of board).content) }
    {
        let walk = walk_to(alloc, &self.history, moment as usize)?;
        let pages = pages_left(alloc, &walk, torn)?;
        let history = History::with_pages(alloc, self.history.blocks, pages)?;
        Ok(MemBoard::with_history(alloc, history))
    }
}
