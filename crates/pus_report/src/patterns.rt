// Reports of patterns: those of packets that are forwarded (ECSS-E-ST-70-41C, 6.14) or stored
// (6.15).
ghost use Rattle.std.specs.Prelude.{◌≡◌, ◌+◌, ◌*◌, ◌<◌, ◌≤◌, ◌^◌, [], ◌∷◌, ◌++◌, length, drop};
ghost use Rattle.octet_fields.specs.Fields.{Writes};
ghost use Rattle.space_packet.specs.Packet.{IsPacket};
ghost use Rattle.control_defs.specs.PatternOctets.{pattern_octets};
ghost use Rattle.control_defs.proofs.PatternOctets.{length-pattern_octets};
ghost use Rattle.pst_model.specs.Reports.{forward_report, listed_octets, report_packet, types_report};

use crate::head::{Head, put_head};
use crate::rows::{Row, put_rows, write_listed};
use control_defs::{FORWARDING, Pattern, STORAGE, put_pattern};
use octet_fields::put_u16;
use pus_header::TM_HEADERS;

/// The message subtype of the report of what is forwarded.
const FORWARD_REPORT: u8 = 4;

/// The message subtype of the report of what a store takes.
const TYPES_REPORT: u8 = 6;

/// The octets of a pattern.
const PATTERN: u32 = 5;

/// The octets of a store's identifier.
const STORE: u32 = 2;

impl Row for Pattern {
    ghost octets = { pattern_octets };

    ghost fits = { λ pattern. Unit {0} };

    ghost SIZE = { 5 };

    const SIZE: u32 = PATTERN;

    fn put(self, out: &mut [u8], at: usize) -> usize {
        put_pattern(self, out, at)
    }

    ghost sized = { length-pattern_octets };
}

/// Writes the report of the patterns of packets that are forwarded, at most 64, at the front of
/// `out`, which has at least 1,024 octets, and answers the report's length: 20 octets and five a
/// pattern. The report is of service 14 (ECSS-E-ST-70-41C, 6.14); it has the number of patterns in
/// one octet, and of each its form in one, its APID in two, its service type and its message
/// subtype in one each, 0 where the form does not use them. The rest of `out` stays.
pub fn write_forward(head: Head, patterns: &[Pattern], out: &mut [u8]) -> u32
    requires count { head.count < 16384 }
    requires moment { head.moment < 2 ^ 48 }
    requires few { length patterns.now ≤ 64 }
    requires room { 1024 ≤ length out.old }
    ensures length { result ≡ length (report_packet head.count head.moment
        (forward_report patterns.now)) }
    ensures report { let packet = report_packet head.count head.moment (forward_report patterns.now)
        in out.new ≡ packet ++ drop (length packet) out.old }
    ensures short { result ≤ 1024 }
    ensures packet { IsPacket (report_packet head.count head.moment (forward_report patterns.now)) }
{
    write_listed(head, FORWARDING, FORWARD_REPORT, patterns, out)
}

/// Writes the report of the patterns of packets that a store takes, at most 64, at the front of
/// `out`, which has at least 1,024 octets, and answers the report's length: 22 octets and five a
/// pattern. The report is of service 15 (ECSS-E-ST-70-41C, 6.15); it has the store in two octets,
/// and the patterns as in the report of those of packets that are forwarded. The rest of `out`
/// stays.
pub fn write_types(head: Head, store: u16, patterns: &[Pattern], out: &mut [u8]) -> u32
    requires count { head.count < 16384 }
    requires moment { head.moment < 2 ^ 48 }
    requires few { length patterns.now ≤ 64 }
    requires room { 1024 ≤ length out.old }
    ensures length { result ≡ length (report_packet head.count head.moment
        (types_report store patterns.now)) }
    ensures report { let packet = report_packet head.count head.moment
        (types_report store patterns.now)
        in out.new ≡ packet ++ drop (length packet) out.old }
    ensures short { result ≤ 1024 }
    ensures packet { IsPacket (report_packet head.count head.moment
        (types_report store patterns.now)) }
{
    let content = STORE + 1 + PATTERN * patterns.len() as u32;
    put_head(head, STORAGE, TYPES_REPORT, content, out);
    put_u16(out, TM_HEADERS, store);
    put_rows(patterns, out, TM_HEADERS + STORE as usize);
    TM_HEADERS as u32 + content
}
