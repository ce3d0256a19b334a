// A record that is put behind those of a tail.
ghost use Rattle.std.specs.Prelude.{◌≡◌, ◌<◌, ◌≤◌, ◌+◌, ◌*◌, length, Some, IfOk, IfErr, OnOk};
ghost use Rattle.board.specs.Counts.{Rose};
ghost use Rattle.board.specs.Flash.{pages_from};
ghost use Rattle.board.specs.Meaning.{TellsFlash};
ghost use Rattle.board.specs.Reads.{ReadsOnly};
ghost use Rattle.space_packet.specs.Charge.{charge_of};
ghost use Rattle.record_view.specs.Records.{Meaning, record_at};
ghost use Rattle.chain_log.specs.Copies.{Copies, IsAfterCopy, IsCopied, OnMismatch};
ghost use Rattle.chain_log.specs.Loaded.{IsFirstDifference, IsMismatchAt, IsPlace, OnFlash};
ghost use Rattle.chain_log.specs.Loaded.{UnlessFlash, octets_at};
ghost use Rattle.chain_log.specs.Pages.{IsCleanFrom, IsDataBlock, block_octets};

use crate::loading::load_record;
use crate::place::{LoadFault, Place};
use crate::tail::Tail;
use board::{Board, Failed};

/// The octets of the longest record.
const LONGEST: usize = 4352;

/// Loads a record and appends it to a tail under the number `to`, with the stamp that was read, and
/// returns its first page there. `buf` has at least 8,704 octets, which may be any afterwards.
/// There is no barrier: until one, a power loss may leave anything in the copy's pages.
///
/// `Flash`: a read failed, and the tail is as before, or a program failed, and the tail is shut.
/// `Mismatch`: what is found is not the record that was kept; then nothing changes.
pub fn copy_record<B: Board>(
    board: &mut B,
    place: Place,
    number: u32,
    to: u32,
    tail: &mut Tail,
    buf: &mut [u8],
) -> Result<u32, LoadFault>
    requires place { IsPlace (B.means.device board.old).blocks place }
    requires block { IsDataBlock (B.means.device board.old).blocks tail.old.block }
    requires fits { tail.old.used + charge_of place.length ≤ 256 }
    requires room { 8704 ≤ length buf.old }
    requires clean { TellsFlash B.means board.old
        → IsCleanFrom (B.means.flash board.old) tail.old.block tail.old.used }

    ensures page { IfOk result (λ page. page ≡ tail.old.used) }
    ensures tail { IsAfterCopy (charge_of place.length) tail.old result tail.new }
    ensures copied { OnOk result (TellsFlash B.means board.old → IsCopied place number to tail.old
        (B.means.flash board.old) (B.means.flash board.new)) }
    ensures clean { TellsFlash B.means board.old
        → IsCleanFrom (B.means.flash board.new) tail.new.block tail.new.used }
    ensures seen { OnOk result (TellsFlash B.means board.old
        → B.means.images board.new (B.means.moment board.new) (B.means.flash board.new).content) }

    // The first pair that differs, if the flash is told, and none if a record is spelled there.
    ensures differs { IfErr result (λ fault. TellsFlash B.means board.old
        → IsFirstDifference (octets_at (B.means.flash board.old).content place) number
        place.length fault) }
    ensures spelled { TellsFlash B.means board.old → (meaning : Meaning)
        → record_at (block_octets (B.means.flash board.old).content place.block)
        number place.page ≡ Some meaning
        → length meaning.packet ≡ place.length → OnMismatch result ⊥ }
    ensures mismatch { IfErr result (IsMismatchAt place) }
    ensures unchanged { OnMismatch result
        (ReadsOnly B.means (charge_of place.length) board.old board.new) }

    // No page but those of the copy is touched, also where a call failed. They were clean.
    ensures copies { Copies B.means
        (pages_from (256 * tail.old.block + tail.old.used) (charge_of place.length))
        (charge_of place.length) (charge_of place.length) board.old board.new }
    ensures no_fault { UnlessFlash result
        ((B.means.counts board.new).flash_faults ≡ (B.means.counts board.old).flash_faults) }
    ensures cause { OnFlash result
        (Rose (B.means.counts board.old).flash_faults (B.means.counts board.new).flash_faults) }
{
    let (near, far) = buf.split_at_mut(LONGEST);
    let view = load_record(board, place, number, near)?;
    match tail.append(board, to, view.stamp, view.packet, far) {
        Ok(page) => Ok(page),
        Err(Failed) => Err(LoadFault::Flash),
    }
}
