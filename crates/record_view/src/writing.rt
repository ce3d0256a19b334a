// A record as octets.
ghost use Rattle.std.specs.Prelude.{◌≡◌, ◌≤◌, ◌<◌, ◌+◌, ◌-◌, ◌*◌, ◌^◌, ◌++◌, drop, length, replicate};
ghost use Rattle.octet_fields.specs.Fields.{Writes};
ghost use Rattle.space_packet.specs.Charge.{charge_of};
ghost use Rattle.space_packet.specs.View.{octets_of};
ghost use Rattle.record_view.specs.Written.{head_octets, record_pages};

use crate::view::HEAD;
use octet_fields::{put_octets, put_u16, put_u32, put_u48};
use space_packet::{PacketView, charge};

/// Writes a record into the first pages of `out`, which has at least 4,352 octets, and leaves the
/// rest. Returns how many pages it takes, 1 to 17. The stamp is below 2^48.
pub fn write_record(number: u32, stamp: u64, packet: PacketView<'_>, out: &mut [u8]) -> u32
    requires stamp { stamp < 2 ^ 48 }
    requires room { 4352 ≤ length out.old }
    ensures charge { result ≡ charge_of (length (octets_of packet.entry)) }
    ensures pages { out.new
        ≡ record_pages number stamp (octets_of packet.entry) ++ drop (256 * result) out.old }
{
    let octets = packet.bytes();
    let pages = charge(octets.len() as u32);
    put_head(number, stamp, octets.len() as u16, out);
    put_octets(out, HEAD, octets);
    clear(out, HEAD + octets.len(), 256 * pages as usize);
    pages
}

// Writes the head of a record.
fn put_head(number: u32, stamp: u64, said: u16, out: &mut [u8])
    requires stamp { stamp < 2 ^ 48 }
    requires room { 16 ≤ length out.old }
    ensures { Writes out.old out.new 0 (head_octets number stamp said) }
{
    put_u48(out, 0, stamp);
    put_u32(out, 6, number);
    put_u16(out, 10, said);
    put_u32(out, 12, 0);
}

// Writes zeros from one place to another.
fn clear(out: &mut [u8], from: usize, to: usize)
    requires order { from ≤ to }
    requires room { to ≤ length out.old }
    ensures { Writes out.old out.new from (replicate (to - from) 0) }
{
    out[from..to].fill(0);
}
