// The pages of a board in memory, and what the steps of a flash do to them.
ghost use Rattle.std.specs.Prelude.{◌≡◌, ◌≤◌, ◌<◌, ◌+◌, ◌*◌, ◌/◌, ◌%◌, ℕ, [], All, drop, get_or, length, take, IfOk};
ghost use Rattle.board.specs.Flash.{Flash, IsPage, blank};
ghost use Rattle.board.specs.History.{end_of, flash_after_step};

use crate::step::Step;
use std::alloc::{AllocError, Global};

/// The octets of a slice of 256.
pub fn page_of(from: &[u8]) -> [u8; 256]
    requires { length from.now ≡ 256 }
    ensures same { result ≡ from.now }
    ensures page { IsPage result }
{
    let mut octets = [0; 256];
    octets.copy_from_slice(from);
    octets
}

/// So many blank pages.
pub fn blank_pages(alloc: Global, count: usize) -> Result<Vec<[u8; 256]>, AllocError>
    ensures count { IfOk result (λ pages. length pages.items ≡ count) }
    ensures blank { IfOk result (λ pages. (p : ℕ) → p < count → get_or pages.items p [] ≡ blank) }
{
    let mut pages = Vec::new(alloc);
    for _page in 0..count {
        pages.push([255; 256])?;
    }
    Ok(pages)
}

/// Puts a page in its place.
pub fn put(pages: &mut Vec<[u8; 256]>, place: usize, octets: [u8; 256])
    requires { place < length pages.old.items }
    ensures count { length pages.new.items ≡ length pages.old.items }
    ensures page { get_or pages.new.items place [] ≡ octets }
    ensures others { (p : ℕ) → (p ≡ place → ⊥) → get_or pages.new.items p [] ≡ get_or pages.old.items p [] }
{
    pages[place] = octets;
}

// Makes the 256 pages from this one on blank.
fn wipe(pages: &mut Vec<[u8; 256]>, first: usize)
    requires { first + 256 ≤ length pages.old.items }
    ensures count { length pages.new.items ≡ length pages.old.items }
    ensures wiped { (p : ℕ) → first ≤ p → p < first + 256 → get_or pages.new.items p [] ≡ blank }
    ensures below { (p : ℕ) → p < first → get_or pages.new.items p [] ≡ get_or pages.old.items p [] }
    ensures above { (p : ℕ) → first + 256 ≤ p → get_or pages.new.items p [] ≡ get_or pages.old.items p [] }
{
    for page in first..first + 256 {
        put(pages, page, [255; 256]);
    }
}

/// Does to the pages what a step does to the content of a flash.
pub fn do_step(pages: &mut Vec<[u8; 256]>, step: &Step)
    requires { end_of step.now ≤ length pages.old.items }
    ensures count { length pages.new.items ≡ length pages.old.items }
    ensures pages { (flash : Flash) (p : ℕ) → get_or pages.old.items p [] ≡ flash.content p
        → get_or pages.new.items p [] ≡ (flash_after_step step.now flash).content p }
{
    match step {
        Step::Program { place, octets } => put(pages, *place as usize, **octets),
        Step::Erase { block } => wipe(pages, 256 * *block as usize),
        Step::TornProgram { .. } | Step::TornErase { .. } | Step::Barrier | Step::Send { .. } => {}
    }
}

/// The same pages again.
pub fn copy_of(alloc: Global, pages: &Vec<[u8; 256]>) -> Result<Vec<[u8; 256]>, AllocError>
    ensures { IfOk result (λ copy. copy.items ≡ pages.now.items) }
{
    let mut copy = Vec::new(alloc);
    for page in pages {
        copy.push(*page)?;
    }
    Ok(copy)
}

/// The pages of an image, page after page.
pub fn pages_of(alloc: Global, image: &[u8]) -> Result<Vec<[u8; 256]>, AllocError>
    requires { length image.now % 256 ≡ 0 }
    ensures count { IfOk result (λ pages. 256 * length pages.items ≡ length image.now) }
    ensures pages { IfOk result (λ pages. (p : ℕ) → p < length pages.items
        → get_or pages.items p [] ≡ take 256 (drop (256 * p) image.now)) }
    ensures fit { IfOk result (λ pages. All IsPage pages.items) }
{
    let mut pages = Vec::new(alloc);
    for page in 0..image.len() / 256 {
        pages.push(page_of(&image[256 * page..256 * page + 256]))?;
    }
    Ok(pages)
}
