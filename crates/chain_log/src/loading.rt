// Records that are read from the flash.
ghost use Rattle.std.specs.Prelude.{◌≡◌, ◌<◌, ◌≤◌, ◌+◌, ◌*◌, length, Some};
ghost use Rattle.std.specs.Prelude.{IfOk, IfErr, OnOk, OnErr};
ghost use Rattle.board.specs.Counts.{Rose, RoseBy};
ghost use Rattle.board.specs.Meaning.{TellsFlash};
ghost use Rattle.board.specs.Reads.{ReadsOnly};
ghost use Rattle.space_packet.specs.Charge.{charge_of};
ghost use Rattle.record_view.specs.Records.{Meaning, record_at};
ghost use Rattle.record_view.specs.View.{meaning_of};
ghost use Rattle.chain_log.specs.Loaded.{Gives, IsFirstDifference, IsFound, IsKept};
ghost use Rattle.chain_log.specs.Loaded.{IsMismatchAt, IsPlace, OnFlash, UnlessFlash, octets_at};
ghost use Rattle.chain_log.specs.Pages.{block_octets};

use crate::pages::read_pages;
use crate::place::{LoadFault, Place};
use board::{Board, Failed};
use octet_fields::{u16_at, u32_at, u48_at};
use record_view::{Link, RecordView, Records};
use space_packet::{PacketView, charge};

/// The octets of a record in front of its packet.
const HEAD: usize = 16;

/// Reads a block, each of its 256 pages once, into `buf` of 65,536 octets, and returns its records:
/// at most `count` of them, the first with the link's number. `Failed`: a read failed.
pub fn load_block<'a, B: Board>(
    board: &mut B,
    link: Link,
    count: u32,
    buf: &'a mut [u8],
) -> Result<Records<'a>, Failed>
    requires block { link.block < (B.means.device board.old).blocks }
    requires room { length buf.old ≡ 65536 }

    ensures records { IfOk result (λ records. TellsFlash B.means board.old
        → records.block ≡ block_octets (B.means.flash board.old).content link.block) }
    ensures asked { IfOk result (λ records. records ≡ record {
      block = records.block;
      number = link.first;
      left = count;
      page = 0;
    }) }
    ensures whole { IfOk result (λ records. length records.block ≡ 65536) }
    ensures reads { ReadsOnly B.means 256 board.old board.new }
    ensures counted { OnOk result
        (RoseBy 256 (B.means.counts board.old).reads (B.means.counts board.new).reads) }
    ensures no_fault { OnOk result
        ((B.means.counts board.new).flash_faults ≡ (B.means.counts board.old).flash_faults) }
    ensures cause { OnErr result
        (Rose (B.means.counts board.old).flash_faults (B.means.counts board.new).flash_faults) }
{
    read_pages(board, u32::from(link.block), 0, 256, buf)?;
    Ok(Records::new(buf, link.first, count))
}

/// Reads the pages of a place, and no other, into `buf`, which has at least 4,352 octets, and
/// returns the record there, whose packet is a slice of `buf`. The place lies in one block, and its
/// length is 7 to 4,096 octets.
///
/// `Flash`: a read failed. `Mismatch`: what is found is not the record that was kept.
pub fn load_record<'a, B: Board>(
    board: &mut B,
    place: Place,
    number: u32,
    buf: &'a mut [u8],
) -> Result<RecordView<'a>, LoadFault>
    requires place { IsPlace (B.means.device board.old).blocks place }
    requires room { 4352 ≤ length buf.old }

    // Where the flash is told, the answer is that of the octets at the place.
    ensures found { IfOk result (λ view. TellsFlash B.means board.old
        → IsFound (octets_at (B.means.flash board.old).content place) number place.length
        (meaning_of view)) }
    ensures differs { IfErr result (λ fault. TellsFlash B.means board.old
        → IsFirstDifference (octets_at (B.means.flash board.old).content place) number
        place.length fault) }
    ensures spelled { TellsFlash B.means board.old → (meaning : Meaning)
        → record_at (block_octets (B.means.flash board.old).content place.block)
        number place.page ≡ Some meaning
        → length meaning.packet ≡ place.length → Gives meaning result }

    // What holds on each board.
    ensures kept { IfOk result (IsKept number place.length) }
    ensures mismatch { IfErr result (IsMismatchAt place) }
    ensures reads { ReadsOnly B.means (charge_of place.length) board.old board.new }
    ensures counted { UnlessFlash result (RoseBy (charge_of place.length)
        (B.means.counts board.old).reads (B.means.counts board.new).reads) }
    ensures no_fault { UnlessFlash result
        ((B.means.counts board.new).flash_faults ≡ (B.means.counts board.old).flash_faults) }
    ensures cause { OnFlash result
        (Rose (B.means.counts board.old).flash_faults (B.means.counts board.new).flash_faults) }
{
    let pages = charge(place.length);
    match read_pages(board, place.block, place.page, pages, buf) {
        Ok(()) => judge(place, number, &buf[..256 * pages as usize]),
        Err(Failed) => Err(LoadFault::Flash),
    }
}

// The record that the octets of a place are.
fn judge(place: Place, number: u32, octets: &[u8]) -> Result<RecordView<'_>, LoadFault>
    requires shortest { 7 ≤ place.length }
    requires longest { place.length ≤ 4096 }
    requires room { 16 + place.length ≤ length octets.now }

    ensures found { IfOk result (λ view. IsFound octets.now number place.length
        (meaning_of view)) }
    ensures differs { IfErr result (IsFirstDifference octets.now number place.length) }
    ensures judges { OnFlash result ⊥ }
    ensures kept { IfOk result (IsKept number place.length) }
    ensures mismatch { IfErr result (IsMismatchAt place) }
{
    let packet = &octets[HEAD..HEAD + place.length as usize];
    place.expect(number, u32_at(octets, 6))?;
    place.expect(place.length, u32::from(u16_at(octets, 10)))?;
    place.expect(0, u32::from(u16_at(packet, 0) / 8192))?;
    place.expect(place.length, 7 + u32::from(u16_at(packet, 4)))?;
    Ok(RecordView {
        number,
        stamp: u48_at(octets, 0),
        packet: PacketView::new(packet),
    })
}
