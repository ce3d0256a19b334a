// The event report of a put that a store refused (ECSS-E-ST-70-41C, 6.5).
ghost use Rattle.std.specs.Prelude.{◌≡◌, ◌<◌, ◌≤◌, ◌^◌, ◌++◌, length, drop};
ghost use Rattle.space_packet.specs.Packet.{IsPacket};
ghost use Rattle.pst_model.specs.Reports.{event_report, report_packet};

use crate::head::{Head, put_head};
use octet_fields::{put_u16, put_u32};
use pus_header::TM_HEADERS;

/// The service of event reporting.
const EVENTS: u8 = 5;

/// The message subtype of an event of low severity.
const LOW_SEVERITY: u8 = 2;

/// The event that a store refused a packet.
const PUT_REFUSED: u16 = 1;

/// The octets of the event, the store and the two numbers of pages.
const CONTENT: u32 = 12;

/// Writes the report that a store refused a packet for want of room at the front of `out`, which
/// has at least 1,024 octets, and answers the report's length, 31 octets. The packet needs `need`
/// pages of 256 octets, and `free` were free. The report is of service 5, the low severity event
/// with number 1 (ECSS-E-ST-70-41C, 6.5); the store has two octets in it, and each number of pages
/// four. The rest of `out` stays.
pub fn write_event(head: Head, store: u16, need: u32, free: u32, out: &mut [u8]) -> u32
    requires count { head.count < 16384 }
    requires moment { head.moment < 2 ^ 48 }
    requires room { 1024 ≤ length out.old }
    ensures length { result ≡ length (report_packet head.count head.moment
        (event_report store need free)) }
    ensures report { let packet = report_packet head.count head.moment
        (event_report store need free)
        in out.new ≡ packet ++ drop (length packet) out.old }
    ensures short { result ≤ 1024 }
    ensures packet { IsPacket (report_packet head.count head.moment
        (event_report store need free)) }
{
    put_head(head, EVENTS, LOW_SEVERITY, CONTENT, out);
    put_u16(out, TM_HEADERS, PUT_REFUSED);
    put_u16(out, TM_HEADERS + 2, store);
    put_u32(out, TM_HEADERS + 4, need);
    put_u32(out, TM_HEADERS + 8, free);
    TM_HEADERS as u32 + CONTENT
}
