// The packets of arrivals.
ghost use Rattle.std.specs.Prelude.{◌≡◌, ◌+◌, ◌-◌, ◌%◌, ◌≤◌, ◌<◌, ◌^◌, ◌++◌, ◌∷◌, [], map, length, drop};
ghost use Rattle.octet_fields.specs.Fields.{Writes, big_bytes};
ghost use Rattle.space_packet.specs.Header.{header_of};
ghost use Rattle.traffic_gen.specs.Traffic.{arrival_packet, counting, length_by, service_by, subtype_by, time_of};

use octet_fields::{put_u8, put_u16, put_u48};
use space_packet::{Primary, UNSEGMENTED, write_primary};

/// The most octets of a packet.
pub const LARGEST: usize = 1100;

/// The octets of the two headers of a report.
const HEADERS: usize = 19;

/// The greatest number of arrivals.
pub const MOST: u32 = 100_000;

/// The time of the arrival with this number, counted from 0.
pub fn time_of(number: u32) -> u64
    requires { number ≤ 100000 }
    ensures value { result ≡ time_of number }
    ensures fits { result < 2 ^ 48 }
{
    65_536 + 64 * u64::from(number)
}

// The service and subtype of a report, by a draw.
fn kind_by(draw: u32) -> (u8, u8)
    ensures service { result.0 ≡ service_by draw }
    ensures subtype { result.1 ≡ subtype_by draw }
{
    let turn = draw % 4;
    if turn <= 1 {
        (3, 25)
    } else if turn == 2 {
        (5, 2)
    } else {
        (1, 7)
    }
}

// Writes the octets behind the headers, which count on from the number.
fn write_body(number: u32, count: usize, out: &mut [u8])
    requires room { 19 + count ≤ length out.old }
    requires few { count ≤ 1081 }
    requires number { number < 100000 }
    ensures { Writes out.old out.new 19 (counting number count) }
{
    for j in 0..count {
        out[HEADERS + j] = ((number as usize + j) % 256) as u8;
    }
}

/// Writes the packet of an arrival, by three draws, at the front of `out`, and answers its length.
pub fn write_arrival(number: u32, a: u32, b: u32, c: u32, out: &mut [u8]) -> usize
    requires number { number < 100000 }
    requires room { 1100 ≤ length out.old }
    ensures length { result ≡ length_by c }
    ensures packet { out.new ≡ arrival_packet number a b c ++ drop (length_by c) out.old }
{
    let length = 60 + (c % 1041) as usize;
    let head = Primary {
        command: false,
        secondary: true,
        apid: 100 + (a % 4) as u16,
        flags: UNSEGMENTED,
        count: (number % 16_384) as u16,
        length: length as u16 - 7,
    };
    let (service, subtype) = kind_by(b);
    write_primary(head, out);
    put_u8(out, 6, 32);
    put_u8(out, 7, service);
    put_u8(out, 8, subtype);
    put_u16(out, 9, 0);
    put_u16(out, 11, 0);
    put_u48(out, 13, time_of(number));
    write_body(number, length - HEADERS, out);
    length
}
