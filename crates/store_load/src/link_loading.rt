// The records of one block of a store, loaded from the flash.
ghost use Rattle.std.specs.Prelude.{◌≡◌, ◌+◌, ◌*◌, ◌<◌, ◌≤◌, ◌||◌, nat_le, None, Some, suc, length, slice_get, IfOk, MatchOption, OnOk};
ghost use Rattle.board.specs.Counts.{Rose};
ghost use Rattle.board.specs.Meaning.{TellsFlash};
ghost use Rattle.board.specs.Reads.{ReadsOnly};
ghost use Rattle.record_view.specs.Records.{records_left};
ghost use Rattle.store_load.specs.Extents.{end_of, extents_of, pages_in};
ghost use Rattle.store_load.specs.Loading.{IsLoaded, IsRefused, OnLoadFlash, OnUnlawful, UnlessLoadFlash, UsedBefore, load_extents, take_records};
ghost use Rattle.store_load.specs.Held.{IsTaken};
ghost use Rattle.store_load.specs.Keeping.{IsInDevice};
ghost use Rattle.std.specs.List.{All};
ghost use Rattle.store_directory.specs.Rows.{between};

use crate::loading::{Limits, Loading};
use crate::stop::LoadStop;
use board::{Board, Failed};
use chain_log::load_block;
use record_view::{Link, Records};
use store_directory::Row;

/// Loads a block of a store, which has `count` records, into `loading`. Returns how many of its
/// pages they use.
pub(crate) fn load_link<B: Board>(
    board: &mut B,
    link: Link,
    count: u32,
    loading: &mut Loading,
    limits: Limits,
    buf: &mut [u8],
) -> Result<u32, LoadStop>
    requires block { link.block < (B.means.device board.old).blocks }
    requires room { length buf.old ≡ 65536 }
    requires size { loading.old.index.size ≡ limits.size }

    ensures loaded { IfOk result (IsLoaded limits (TellsFlash B.means board.old)
        (B.means.flash board.old).content
        (record { block = link.block; first = link.first; count = count })
        loading.old loading.new) }
    ensures unlawful { OnUnlawful result (TellsFlash B.means board.old → IsRefused limits
        (B.means.flash board.old).content
        (record { block = link.block; first = link.first; count = count }) loading.old) }
    ensures size { OnOk result (loading.new.index.size ≡ limits.size) }
    ensures reads { ReadsOnly B.means 256 board.old board.new }
    ensures no_fault { UnlessLoadFlash result
        ((B.means.counts board.new).flash_faults ≡ (B.means.counts board.old).flash_faults) }
    ensures cause { OnLoadFlash result
        (Rose (B.means.counts board.old).flash_faults (B.means.counts board.new).flash_faults) }
{
    match load_block(board, link, count, buf) {
        Ok(mut records) => keep_all(&mut records, link.block, loading, limits),
        Err(Failed) => Err(LoadStop::Flash),
    }
}

// Keeps all records of a block. Returns how many of its pages they use.
fn keep_all(
    records: &mut Records<'_>,
    block: u16,
    loading: &mut Loading,
    limits: Limits,
) -> Result<u32, LoadStop>
    requires size { loading.old.index.size ≡ limits.size }
    requires front { records.old.page ≡ 0 }

    ensures loaded { IfOk result (λ used. (take_records limits block 0 (records_left records.old) loading.old ≡ Some loading.new)
        × (length (records_left records.old) ≡ records.old.left)
        × (used ≡ pages_in (records_left records.old)) × (used ≤ 256)) }
    ensures unlawful { OnUnlawful result ((length (records_left records.old) ≡ records.old.left)
        → (take_records limits block 0 (records_left records.old) loading.old ≡ None)) }
    ensures read { OnLoadFlash result ⊥ }
    ensures size { OnOk result (loading.new.index.size ≡ limits.size) }
{
    if !loading.take_records(records, block, limits) || records.left() > 0 {
        return Err(LoadStop::Unlawful);
    }
    Ok(records.page())
}

// The link at a place, and how many records its block has.
fn extent_at(row: &Row, links: &[Link], at: usize) -> (Link, u32)
    requires { at < length links.now }
    ensures extent { slice_get (extents_of row.now links.now) at ≡ Some (record {
      block = result.0.block;
      first = result.0.first;
      count = result.1;
    }) }
    ensures link { slice_get links.now at ≡ Some result.0 }
{
    let link = links[at];
    (link, count_to(link, end_at(row, links, at)))
}

/// How many records a link's block has, where the number behind the last one is `end`.
pub(crate) fn count_to(link: Link, end: u32) -> u32
    ensures { result ≡ between link.first end }
{
    end.wrapping_sub(link.first)
}

// Whether the block at a place is the last one, or has at least so many pages in use.
fn is_filled(links: &[Link], at: usize, used: u32, least: u32) -> bool
    requires { at < length links.now }
    ensures { result ≡ (nat_le (length links.now) (at + 1) || nat_le least used) }
{
    links.len() <= at + 1 || least <= used
}

// The number behind the last record of the block at a place.
fn end_at(row: &Row, links: &[Link], at: usize) -> u32
    requires { at < length links.now }
    ensures { MatchOption (slice_get links.now (suc at)) (result ≡ end_of row.now)
        (λ next. result ≡ next.first) }
{
    match links.get(at + 1) {
        Some(next) => next.first,
        None => row.first.wrapping_add(row.count),
    }
}

/// Loads the blocks of a store, which has at least `least` pages in use in every one but the last.
/// Returns how many pages the last one's records use, and 0 if there is none.
pub(crate) fn load_links<B: Board>(
    board: &mut B,
    row: &Row,
    links: &[Link],
    loading: &mut Loading,
    limits: Limits,
    least: u32,
    buf: &mut [u8],
) -> Result<u32, LoadStop>
    requires blocks { All (IsInDevice (B.means.device board.old).blocks) links.now }
    requires room { length buf.old ≡ 65536 }
    requires size { loading.old.index.size ≡ limits.size }

    ensures loaded { OnOk result (TellsFlash B.means board.old → load_extents limits least
        (B.means.flash board.old).content (extents_of row.now links.now) loading.old
        ≡ Some loading.new) }
    ensures used { IfOk result (λ used. TellsFlash B.means board.old → UsedBefore
        (B.means.flash board.old).content (extents_of row.now links.now) (length links.now) used) }
    ensures taken { IfOk result (IsTaken limits least (extents_of row.now links.now) loading.old
        loading.new) }
    ensures unlawful { OnUnlawful result (TellsFlash B.means board.old → load_extents limits least
        (B.means.flash board.old).content (extents_of row.now links.now) loading.old ≡ None) }
    ensures reads { ReadsOnly B.means (256 * length links.now) board.old board.new }
    ensures no_fault { UnlessLoadFlash result
        ((B.means.counts board.new).flash_faults ≡ (B.means.counts board.old).flash_faults) }
    ensures cause { OnLoadFlash result
        (Rose (B.means.counts board.old).flash_faults (B.means.counts board.new).flash_faults) }
{
    let mut used = 0;
    for at in 0..links.len() {
        let (link, count) = extent_at(row, links, at);
        match load_link(board, link, count, loading, limits, buf) {
            Ok(pages) => used = pages,
            Err(stop) => return Err(stop),
        }
        if !is_filled(links, at, used, least) {
            return Err(LoadStop::Unlawful);
        }
    }
    Ok(used)
}
