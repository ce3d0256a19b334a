// One record, as a view of the block that holds it.
ghost use Rattle.std.specs.Prelude.{◌≡◌, ◌<◌, false, true, length, MatchOption, None, Some};
ghost use Rattle.record_view.specs.Records.{has_head, length_at, record_at};
ghost use Rattle.record_view.specs.View.{meaning_of};

use octet_fields::{u16_at, u32_at, u48_at};
use space_packet::{PacketView, charge};

/// The octets of a record in front of its packet.
pub(crate) const HEAD: usize = 16;

/// A record in a block.
#[derive(Clone, Copy)]
pub struct RecordView<'a> {
    /// Its number.
    pub number: u32,
    /// When its packet arrived, in 1/65,536 s, below 2^48.
    pub stamp: u64,
    /// Its packet, a slice of the block.
    pub packet: PacketView<'a>,
}

/// The record with this number that begins at a page, below 256, of a block of 65,536 octets. None
/// if the octets spell no such record.
pub fn read_record(block: &[u8], number: u32, page: u32) -> Option<RecordView<'_>>
    requires block { length block.now ≡ 65536 }
    requires page { page < 256 }
    ensures { MatchOption result (record_at block.now number page ≡ None)
        (λ view. record_at block.now number page ≡ Some (meaning_of view)) }
{
    let length = length_in_head(block, number, page)?;
    let at = 256 * page as usize;
    let octets = &block[at + HEAD..at + HEAD + length as usize];
    match PacketView::read(octets) {
        Ok(packet) => Some(RecordView {
            number,
            stamp: u48_at(block, at),
            packet,
        }),
        Err(_) => None,
    }
}

// The length of the packet that the record's head says, if the page has the head of the record with
// this number.
fn length_in_head(block: &[u8], number: u32, page: u32) -> Option<u32>
    requires block { length block.now ≡ 65536 }
    requires page { page < 256 }
    ensures { MatchOption result (has_head block.now number page ≡ false)
        (λ said. (has_head block.now number page ≡ true) × (said ≡ length_at block.now page)) }
{
    let at = 256 * page as usize;
    let length = u32::from(u16_at(block, at + 10));
    if u32_at(block, at + 6) == number
        && u32_at(block, at + 12) == 0
        && page + charge(length) <= 256
    {
        Some(length)
    } else {
        None
    }
}
