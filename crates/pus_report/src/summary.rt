// The summary report of packet stores (ECSS-E-ST-70-41C, 6.15.3.8).
ghost use Rattle.std.specs.Prelude.{◌≡◌, ◌+◌, ◌*◌, ◌<◌, ◌≤◌, ◌^◌, ◌++◌, refl, All, length, drop};
ghost use Rattle.octet_fields.specs.Fields.{Writes};
ghost use Rattle.space_packet.specs.Packet.{IsPacket};
ghost use Rattle.pst_model.specs.Reports.{HasTimes, listed_octets, report_packet, summary_octets, summary_report};

use crate::head::Head;
use crate::rows::{Row, write_listed};
use control_defs::STORAGE;
use octet_fields::{put_u8, put_u16, put_u32, put_u48};
use pst_model::SummaryRow;

/// The message subtype of the report.
const SUMMARY_REPORT: u8 = 13;

impl Row for SummaryRow {
    ghost octets = { summary_octets };

    ghost fits = { HasTimes };

    ghost SIZE = { 26 };

    const SIZE: u32 = 26;

    fn put(self, out: &mut [u8], at: usize) -> usize {
        put_u16(out, at, self.store);
        put_u32(out, at + 2, self.packets);
        put_u32(out, at + 6, self.pages);
        put_u48(out, at + 10, self.oldest);
        put_u48(out, at + 16, self.newest);
        put_u32(out, at + 22, self.ahead);
        at + 26
    }

    ghost sized = { λ row. refl };
}

/// Writes the report of what packet stores have, at most 32 of them, at the front of `out`, which
/// has at least 1,024 octets, and answers the report's length: 20 octets and 26 a store. The times
/// are below 2^48. The report is of service 15 (ECSS-E-ST-70-41C, 6.15.3.8); it has the number of
/// stores in one octet, and of each its identifier in two, the number of its packets and their
/// pages in four each, the storage times of its first and its last packet in six each, and how many
/// packets open retrieval has not passed in four. The rest of `out` stays.
pub fn write_summary(head: Head, rows: &[SummaryRow], out: &mut [u8]) -> u32
    requires count { head.count < 16384 }
    requires moment { head.moment < 2 ^ 48 }
    requires few { length rows.now ≤ 32 }
    requires times { All HasTimes rows.now }
    requires room { 1024 ≤ length out.old }
    ensures length { result ≡ length (report_packet head.count head.moment
        (summary_report rows.now)) }
    ensures report { let packet = report_packet head.count head.moment (summary_report rows.now)
        in out.new ≡ packet ++ drop (length packet) out.old }
    ensures short { result ≤ 1024 }
    ensures packet { IsPacket (report_packet head.count head.moment (summary_report rows.now)) }
{
    write_listed(head, STORAGE, SUMMARY_REPORT, rows, out)
}
