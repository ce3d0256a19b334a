// A store, loaded from the flash as it is opened.
ghost use Rattle.std.specs.Prelude.{◌≡◌, ◌*◌, None, Some, length, true, IfOk};
ghost use Rattle.std.specs.List.{All};
ghost use Rattle.board.specs.Counts.{Rose};
ghost use Rattle.board.specs.Meaning.{TellsFlash};
ghost use Rattle.board.specs.Reads.{ReadsOnly};
ghost use Rattle.store_directory.specs.Rows.{is_by, is_lawful_row};
ghost use Rattle.store_load.specs.Keeping.{IsInDevice};
ghost use Rattle.store_load.specs.Held.{IsHeld};
ghost use Rattle.store_load.specs.Kept.{dead_by};
ghost use Rattle.store_load.specs.Kept as kept;
ghost use Rattle.store_load.specs.Loaded.{index_of, limits_of, start_of, used_in};
ghost use Rattle.store_load.specs.Loading.{OnLoadFlash, OnUnlawful, UnlessLoadFlash};

use crate::link_loading::{count_to, load_links};
use crate::loading::{Limits, Loading};
use crate::rule::Rule;
use crate::stop::LoadStop;
use board::Board;
use record_view::Link;
use std::alloc::{AllocError, Global};
use store_directory::Row;
use time_index::Index;

/// A store that was loaded.
#[derive(Drop)]
pub struct Loaded {
    /// Its records: of each the stamp, the place and the packet's length.
    pub index: Index,
    /// How many pages its last block's records use, at most 256. 0 if it has no block.
    pub used: u32,
}

// Whether a record number is at another one or before it. Numbers begin again at 2^32.
fn is_by(number: u32, later: u32) -> bool
    ensures { result ≡ is_by number later }
{
    later.wrapping_sub(number) < 1 << 31
}

// Whether a store has blocks exactly where it has records, the first one in its first block.
fn begins_well(row: &Row, links: &[Link]) -> bool
    ensures { result ≡ kept.begins_well row.now links.now }
{
    let Some(link) = links.first() else {
        return row.count == 0;
    };
    if row.count == 0 || !is_by(link.first, row.first) {
        return false;
    }
    match links.get(1) {
        Some(next) => !is_by(next.first, row.first),
        None => true,
    }
}

// How many records of the first block are dead.
fn dead_before(row: &Row, links: &[Link]) -> u32
    ensures { result ≡ dead_by row.now.first links.now }
{
    match links.first() {
        Some(link) => count_to(*link, row.first),
        None => 0,
    }
}

// Before the first record was read.
fn begin(alloc: Global, row: &Row, links: &[Link]) -> Result<Loading, AllocError>
    requires lawful { is_lawful_row row.now ≡ true }
    ensures { IfOk result (λ loading. loading ≡ start_of row.now links.now) }
{
    let index = Index::new(alloc, row.size, row.first)?;
    Ok(Loading::new(index, dead_before(row, links)))
}

/// Loads the index of a store by its row and its links. The row is lawful, the links name blocks of
/// the board, and `buf` has 65,536 octets, which may be any afterwards. It reads 256 pages at most
/// for each block, in the order of the links, and changes nothing.
///
/// `Flash`: a read failed. `Unlawful`: the flash does not hold such records as the store may have.
/// `NoMemory`: the index found no memory.
pub fn load_store<B: Board>(
    alloc: Global,
    board: &mut B,
    row: &Row,
    links: &[Link],
    now: u64,
    rule: Rule,
    buf: &mut [u8],
) -> Result<Loaded, LoadStop>
    requires lawful { is_lawful_row row.now ≡ true }
    requires blocks { All (IsInDevice (B.means.device board.old).blocks) links.now }
    requires room { length buf.old ≡ 65536 }

    // If the flash is told, the store is loaded exactly if it keeps records by the rule.
    ensures index { IfOk result (λ loaded. TellsFlash B.means board.old
        → index_of rule (B.means.flash board.old).content now row.now links.now
        ≡ Some loaded.index) }
    ensures used { IfOk result (λ loaded. TellsFlash B.means board.old
        → loaded.used ≡ used_in (B.means.flash board.old).content row.now links.now) }
    ensures unlawful { OnUnlawful result (TellsFlash B.means board.old
        → index_of rule (B.means.flash board.old).content now row.now links.now ≡ None) }

    // What holds on each board.
    ensures held { IfOk result (λ loaded.
        IsHeld rule now row.now links.now loaded.index loaded.used) }
    ensures reads { ReadsOnly B.means (256 * length links.now) board.old board.new }
    ensures no_fault { UnlessLoadFlash result
        ((B.means.counts board.new).flash_faults ≡ (B.means.counts board.old).flash_faults) }
    ensures cause { OnLoadFlash result
        (Rose (B.means.counts board.old).flash_faults (B.means.counts board.new).flash_faults) }
{
    if !begins_well(row, links) {
        return Err(LoadStop::Unlawful);
    }
    let Ok(mut loading) = begin(alloc, row, links) else {
        return Err(LoadStop::NoMemory);
    };
    let limits = limits_of(rule, now, row);
    match load_links(board, row, links, &mut loading, limits, rule.least, buf) {
        Ok(used) => Ok(Loaded {
            index: loading.into_index(),
            used,
        }),
        Err(stop) => Err(stop),
    }
}

// What a rule asks of the records of a row at a time.
fn limits_of(rule: Rule, now: u64, row: &Row) -> Limits
    ensures { result ≡ limits_of rule now row.now }
{
    Limits {
        largest: rule.largest,
        now,
        size: row.size,
    }
}
