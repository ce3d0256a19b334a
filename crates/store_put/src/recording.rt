// The record of an arriving packet is programmed, into a store's last block or into a new one.
ghost use Rattle.std.specs.Prelude.{◌≡◌, ◌<◌, ◌≤◌, ◌+◌, ◌*◌, ◌^◌, ℕ, true, IfOk, OnOk, OnErr, length};
ghost use Rattle.block_pool.specs.Blocks.{blocks_of, free_count, is_free, is_ready};
ghost use Rattle.board.specs.Counts.{Rose};
ghost use Rattle.board.specs.Flash.{pages_from};
ghost use Rattle.board.specs.Meaning.{TellsFlash};
ghost use Rattle.board.specs.Touches.{SameElsewhere, Touches};
ghost use Rattle.chain_log.specs.Pages.{IsCleanFrom, IsDataBlock};
ghost use Rattle.put_laws.specs.Indexes.{entry_of};
ghost use Rattle.put_laws.specs.Puts.{SpellsAt, need_of};
ghost use Rattle.store_load.specs.Extents.{end_of};
ghost use Rattle.store_put.specs.Recording.{Begins, stored_by};

use crate::begun::begin_block;
use block_pool::Pool;
use board::{Board, Failed};
use chain_log::Tail;
use space_packet::PacketView;
use store_directory::Row;
use time_index::Entry;

/// A packet that arrives, with its storage time, in 1/65,536 s.
#[derive(Clone, Copy)]
pub struct Arrival<'a> {
    pub time: u64,
    pub packet: PacketView<'a>,
}

// Programs the record of a packet behind those of a tail, with the number behind the last one of a
// row, and returns its entry.
fn append_to<B: Board>(
    board: &mut B,
    mut tail: Tail,
    row: &Row,
    arrival: &Arrival<'_>,
    buf: &mut [u8],
) -> Result<Entry, Failed>
    requires own { IsDataBlock (B.means.device board.old).blocks tail.block }
    requires time { arrival.now.time < 2 ^ 48 }
    requires fits { tail.used + need_of (stored_by arrival.now) ≤ 256 }
    requires room { 4352 ≤ length buf.old }
    requires clean { TellsFlash B.means board.old
        → IsCleanFrom (B.means.flash board.old) tail.block tail.used }

    ensures entry { IfOk result
        (λ entry. entry ≡ entry_of (stored_by arrival.now) tail.block tail.used) }
    ensures spelled { OnOk result (TellsFlash B.means board.old
        → SpellsAt (B.means.flash board.new).content tail.block tail.used (end_of row.now)
        (stored_by arrival.now)) }
    ensures clean { OnOk result (TellsFlash B.means board.old
        → IsCleanFrom (B.means.flash board.new) tail.block
        (tail.used + need_of (stored_by arrival.now))) }
    ensures seen { OnOk result (TellsFlash B.means board.old → B.means.images
        board.new (B.means.moment board.new) (B.means.flash board.new).content) }
    ensures others { TellsFlash B.means board.old → SameElsewhere
        (pages_from (256 * tail.block + tail.used) (need_of (stored_by arrival.now)))
        (B.means.flash board.old) (B.means.flash board.new) }
    ensures touches { Touches B.means
        (pages_from (256 * tail.block + tail.used) (need_of (stored_by arrival.now)))
        (need_of (stored_by arrival.now)) 0 0 board.old board.new }
    ensures no_fault { OnOk result
        ((B.means.counts board.new).flash_faults ≡ (B.means.counts board.old).flash_faults) }
    ensures cause { OnErr result
        (Rose (B.means.counts board.old).flash_faults (B.means.counts board.new).flash_faults) }
{
    let block = tail.block() as u16;
    let number = row.first.wrapping_add(row.count);
    let page = tail.append(board, number, arrival.time, arrival.packet, buf)?;
    Ok(Entry {
        stamp: arrival.time,
        block,
        page: page as u8,
        length: arrival.packet.bytes().len() as u16,
    })
}

/// Programs the record of a packet into a data block, behind the pages that are in use, with the
/// number behind the last one of a row. The other pages are clean, and it needs no more than these.
/// `buf` has at least 4,352 octets, which may be any afterwards. There is no barrier: until one, a
/// power loss may leave anything in the record's pages.
///
/// `Failed`: a program failed. No other page changed.
pub fn append_record<B: Board>(
    board: &mut B,
    block: u16,
    used: u32,
    row: &Row,
    arrival: &Arrival<'_>,
    buf: &mut [u8],
) -> Result<Entry, Failed>
    requires own { IsDataBlock (B.means.device board.old).blocks block }
    requires time { arrival.now.time < 2 ^ 48 }
    requires fits { used + need_of (stored_by arrival.now) ≤ 256 }
    requires room { 4352 ≤ length buf.old }
    requires clean { TellsFlash B.means board.old
        → IsCleanFrom (B.means.flash board.old) block used }

    ensures entry { IfOk result
        (λ entry. entry ≡ entry_of (stored_by arrival.now) block used) }
    ensures spelled { OnOk result (TellsFlash B.means board.old
        → SpellsAt (B.means.flash board.new).content block used (end_of row.now)
        (stored_by arrival.now)) }
    ensures clean { OnOk result (TellsFlash B.means board.old
        → IsCleanFrom (B.means.flash board.new) block (used + need_of (stored_by arrival.now))) }
    ensures seen { OnOk result (TellsFlash B.means board.old → B.means.images
        board.new (B.means.moment board.new) (B.means.flash board.new).content) }
    ensures others { TellsFlash B.means board.old → SameElsewhere
        (pages_from (256 * block + used) (need_of (stored_by arrival.now)))
        (B.means.flash board.old) (B.means.flash board.new) }
    ensures touches { Touches B.means
        (pages_from (256 * block + used) (need_of (stored_by arrival.now)))
        (need_of (stored_by arrival.now)) 0 0 board.old board.new }
    ensures no_fault { OnOk result
        ((B.means.counts board.new).flash_faults ≡ (B.means.counts board.old).flash_faults) }
    ensures cause { OnErr result
        (Rose (B.means.counts board.old).flash_faults (B.means.counts board.new).flash_faults) }
{
    append_to(board, Tail::at(u32::from(block), used), row, arrival, buf)
}

/// Takes a free block, erases it if it is not ready, and programs the record of a packet at its
/// front, with the number behind the last one of a row. `buf` has at least 4,352 octets, which may
/// be any afterwards. There is no barrier behind the record: until one, a power loss may leave
/// anything in its pages.
///
/// `Failed`: a call of the board failed. No page of another block changed.
pub fn begin_record<B: Board>(
    board: &mut B,
    pool: &mut Pool,
    row: &Row,
    arrival: &Arrival<'_>,
    buf: &mut [u8],
) -> Result<Entry, Failed>
    requires some { 0 < free_count pool.old }
    requires blocks { blocks_of pool.old ≡ (B.means.device board.old).blocks }
    requires ready { TellsFlash B.means board.old → (block : ℕ)
        → is_free pool.old block ≡ true → is_ready pool.old block ≡ true
        → IsCleanFrom (B.means.flash board.old) block 0 }
    requires time { arrival.now.time < 2 ^ 48 }
    requires room { 4352 ≤ length buf.old }

    ensures begins { Begins B.means pool.old pool.new board.old board.new (end_of row.now)
        (stored_by arrival.now) result }
    ensures no_fault { OnOk result
        ((B.means.counts board.new).flash_faults ≡ (B.means.counts board.old).flash_faults) }
    ensures cause { OnErr result
        (Rose (B.means.counts board.old).flash_faults (B.means.counts board.new).flash_faults) }
{
    let tail = begin_block(board, pool)?;
    append_to(board, tail, row, arrival, buf)
}
