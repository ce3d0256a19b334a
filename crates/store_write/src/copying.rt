// Records of a store that are copied behind one another into another block.
ghost use Rattle.std.specs.Prelude.{◌≡◌, ◌<◌, ◌≤◌, ◌+◌, ◌*◌, ◌%◌, ◌^◌, length, drop, All, IfOk, IfErr, OnOk};
ghost use Rattle.board.specs.Counts.{Rose};
ghost use Rattle.board.specs.Flash.{pages_from, pages_of_block};
ghost use Rattle.board.specs.Meaning.{TellsFlash};
ghost use Rattle.chain_log.specs.Copies.{Copies, IsAfterCopy, OnMismatch};
ghost use Rattle.chain_log.specs.Loaded.{IsMismatchAt, OnFlash, UnlessFlash};
ghost use Rattle.chain_log.specs.Pages.{IsCleanFrom, IsDataBlock, block_octets};
ghost use Rattle.record_view.specs.Records.{Meaning, record_at};
ghost use Rattle.space_packet.specs.Charge.{charge_of};
ghost use Rattle.time_index.specs.TimeIndex.{pages_of};
ghost use Rattle.store_write.specs.Moved.{AreCopied, AreSpelled, IsElsewhere, IsInPlace, IsMismatchIn};
ghost use Rattle.store_write.specs.Moved.{IsPartlyRenewed, IsSpelled, at_place, place_of};
ghost use Rattle.store_load.specs.Renewing.{renewed_from};
ghost use Rattle.board.specs.Touches.{ReadsAndTouches};
ghost use Rattle.std.specs.Prelude.{Some};

use board::Board;
use chain_log::{LoadFault, Place, Tail, copy_record};
use time_index::{Entry, Index};

// Copies the record of an entry behind those of a tail, under its number, and returns the entry of
// the copy.
fn copy_entry<B: Board>(
    board: &mut B,
    entry: Entry,
    number: u32,
    tail: &mut Tail,
    buf: &mut [u8],
) -> Result<Entry, LoadFault>
    requires place { IsInPlace (B.means.device board.old).blocks entry }
    requires block { IsDataBlock (B.means.device board.old).blocks tail.old.block }
    requires fits { tail.old.used + charge_of entry.length ≤ 256 }
    requires room { 8704 ≤ length buf.old }
    requires clean { TellsFlash B.means board.old
        → IsCleanFrom (B.means.flash board.old) tail.old.block tail.old.used }

    ensures entry { IfOk result (λ moved. moved ≡ at_place tail.old.block tail.old.used entry) }
    ensures tail { IsAfterCopy (charge_of entry.length) tail.old result tail.new }
    ensures copied { OnOk result (TellsFlash B.means board.old → (meaning : Meaning)
        → IsSpelled (B.means.flash board.old).content number entry meaning
        → record_at (block_octets (B.means.flash board.new).content tail.old.block) number
        tail.old.used ≡ Some meaning) }
    ensures clean { TellsFlash B.means board.old
        → IsCleanFrom (B.means.flash board.new) tail.new.block tail.new.used }
    ensures agrees { TellsFlash B.means board.old → (meaning : Meaning)
        → IsSpelled (B.means.flash board.old).content number entry meaning
        → OnMismatch result ⊥ }
    ensures mismatch { IfErr result (IsMismatchAt (place_of entry)) }
    ensures copies { Copies B.means
        (pages_from (256 * tail.old.block + tail.old.used) (charge_of entry.length))
        (charge_of entry.length) (charge_of entry.length) board.old board.new }
    ensures no_fault { UnlessFlash result
        ((B.means.counts board.new).flash_faults ≡ (B.means.counts board.old).flash_faults) }
    ensures cause { OnFlash result
        (Rose (B.means.counts board.old).flash_faults (B.means.counts board.new).flash_faults) }
{
    let place = Place {
        block: u32::from(entry.block),
        page: u32::from(entry.page),
        length: u32::from(entry.length),
    };
    let page = copy_record(board, place, number, number, tail, buf)?;
    Ok(Entry {
        block: tail.block() as u16,
        page: page as u8,
        ..entry
    })
}

/// Copies the records of an index from a position on into the block of a tail that has none yet,
/// under their numbers, and puts their new places into the index. `buf` has at least 8,704 octets. There is no barrier.
///
/// After an error the first of these entries name the copies, and the others the old places.
pub(crate) fn copy_entries<B: Board>(
    board: &mut B,
    from: u32,
    index: &mut Index,
    tail: &mut Tail,
    buf: &mut [u8],
) -> Result<(), LoadFault>
    requires places { All (IsInPlace (B.means.device board.old).blocks)
        (drop from index.old.entries) }
    requires block { IsDataBlock (B.means.device board.old).blocks tail.old.block }
    requires apart { All (IsElsewhere tail.old.block) (drop from index.old.entries) }
    requires fits { pages_of (drop from index.old.entries) ≤ 256 }
    requires empty { tail.old.used ≡ 0 }
    requires room { 8704 ≤ length buf.old }
    requires clean { TellsFlash B.means board.old
        → IsCleanFrom (B.means.flash board.old) tail.old.block 0 }

    ensures index { OnOk result (index.new ≡ renewed_from from tail.old.block index.old) }
    ensures partly { IsPartlyRenewed from tail.old.block index.old index.new }
    ensures tail { OnOk result (tail.new ≡ record {
      block = tail.old.block;
      used = pages_of (drop from index.old.entries);
    }) }
    ensures clean { OnOk result (TellsFlash B.means board.old
        → IsCleanFrom (B.means.flash board.new) tail.new.block tail.new.used) }
    ensures copied { OnOk result (TellsFlash B.means board.old
        → AreCopied (B.means.flash board.old).content (B.means.flash board.new).content
        tail.old.block (index.old.first + from) (drop from index.old.entries)) }
    ensures agrees { TellsFlash B.means board.old
        → AreSpelled (B.means.flash board.old).content (index.old.first + from)
        (drop from index.old.entries) → OnMismatch result ⊥ }
    ensures mismatch { IfErr result (IsMismatchIn (drop from index.old.entries)) }
    ensures rewrites { ReadsAndTouches B.means (pages_of_block tail.old.block)
        (pages_of (drop from index.old.entries)) (pages_of (drop from index.old.entries)) 0 0
        board.old board.new }
    ensures no_fault { UnlessFlash result
        ((B.means.counts board.new).flash_faults ≡ (B.means.counts board.old).flash_faults) }
    ensures cause { OnFlash result
        (Rose (B.means.counts board.old).flash_faults (B.means.counts board.new).flash_faults) }
{
    let first = index.first();
    for position in from..index.len() {
        let number = first.wrapping_add(position);
        let moved = copy_entry(board, index.entry(position), number, tail, buf)?;
        index.replace(position, moved);
    }
    Ok(())
}
