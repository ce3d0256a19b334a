// Instructions as the request that asks for them.
ghost use Rattle.std.specs.Prelude.{◌≡◌, ◌<◌, ◌≤◌, ◌+◌, ◌++◌, ◌∷◌, [], All, length, drop, if◌then◌else◌};
ghost use Rattle.octet_fields.specs.Fields.{Writes};
ghost use Rattle.space_packet.specs.Header.{header_of};
ghost use Rattle.control_defs.specs.Instructions.{IsInstruction};
ghost use Rattle.pst_model.specs.Requests.{AreAsked, items_octets, request_packet, request_primary, request_secondary, service_of_items, subtype_of_items};
ghost use Rattle.pus_request.specs.Kinds.{asked_by, row_of};

use crate::kinds::Kind;
use crate::written::put_item;
use control_defs::Instruction;
use octet_fields::{put_u8, put_u16};
use pus_header::{APID, PUS_VERSION, TC_HEADERS};
use space_packet::{Primary, UNSEGMENTED, write_primary};

/// Writes the two headers of a request with `size` octets of data, at most 513, into the first 11
/// octets of `out`, and leaves the rest.
fn write_headers(count: u16, acks: u8, kind: Kind, source: u16, size: u16, out: &mut [u8])
    requires count_fits { count < 16384 }
    requires acks_fit { acks < 16 }
    requires size_fits { size ≤ 513 }
    requires room { 11 ≤ length out.old }
    ensures { out.new ≡ header_of (request_primary count size)
        ++ request_secondary acks (asked_by kind).0 (asked_by kind).1 source ++ drop 11 out.old }
{
    let head = Primary {
        command: true,
        secondary: true,
        apid: APID,
        flags: UNSEGMENTED,
        count,
        length: 5 + size - 1,
    };
    write_primary(head, out);
    put_u8(out, 6, PUS_VERSION * 16 + acks);
    let layout = kind.layout();
    put_u8(out, 7, layout.service);
    put_u8(out, 8, layout.subtype);
    put_u16(out, 9, source);
}

/// Writes what stands in front of so many items at `at`, and leaves the rest: their number, or
/// nothing.
fn put_count(kind: Kind, count: u8, out: &mut [u8], at: usize)
    requires { at < length out.old }
    ensures { Writes out.old out.new at (if (row_of kind).is_list then count ∷ [] else []) }
{
    if kind.layout().is_list {
        put_u8(out, at, count);
    }
}

/// Writes the items of instructions from `at` on, one behind another, and leaves the rest.
fn put_items(items: &[Instruction], out: &mut [u8], at: usize)
    requires lawful { All IsInstruction items.now }
    requires room { at + length (items_octets items.now) ≤ length out.old }
    ensures { Writes out.old out.new at (items_octets items.now) }
{
    let mut place = at;
    for item in items {
        place = put_item(*item, out, place);
    }
}

/// Writes the request for instructions at the front of `out`, which has at least 524 octets, and
/// answers its length in octets. The rest of `out` stays. The instructions are lawful and of one
/// kind: 1 to 32, or one of a kind that stands alone. The request is a telecommand of APID 10 with
/// this sequence count, below 16,384 (CCSDS 133.0-B, 4.1.3); its secondary header
/// (ECSS-E-ST-70-41C, 7.4.4) has PUS version number 2, these acknowledgement flags, below 16, and
/// this source identifier.
pub fn write_request(
    count: u16,
    acks: u8,
    source: u16,
    items: &[Instruction],
    out: &mut [u8],
) -> u32
    requires count_fits { count < 16384 }
    requires acks_fit { acks < 16 }
    requires asked { AreAsked (service_of_items items.now) (subtype_of_items items.now) items.now }
    requires room { 524 ≤ length out.old }
    ensures length { let packet = request_packet count acks (service_of_items items.now)
        (subtype_of_items items.now) source items.now in
        result ≡ length packet }
    ensures packet { let packet = request_packet count acks (service_of_items items.now)
        (subtype_of_items items.now) source items.now in
        out.new ≡ packet ++ drop (length packet) out.old }
{
    let kind = Kind::for_item(items[0]);
    let size = kind.place_of(items.len());
    write_headers(count, acks, kind, source, size as u16, out);
    put_count(kind, items.len() as u8, out, TC_HEADERS);
    put_items(items, out, TC_HEADERS + kind.front());
    (TC_HEADERS + size) as u32
}
