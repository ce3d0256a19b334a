// The status report of packet stores (ECSS-E-ST-70-41C, 6.15).
ghost use Rattle.std.specs.Prelude.{◌≡◌, ◌+◌, ◌*◌, ◌<◌, ◌≤◌, ◌^◌, ◌++◌, refl, length, drop};
ghost use Rattle.octet_fields.specs.Fields.{Writes};
ghost use Rattle.space_packet.specs.Packet.{IsPacket};
ghost use Rattle.pst_model.specs.Reports.{listed_octets, report_packet, status_octets, status_report};

use crate::head::Head;
use crate::rows::{Row, write_listed};
use control_defs::STORAGE;
use octet_fields::{put_u8, put_u16};
use pst_model::StatusRow;

/// The message subtype of the report.
const STATUS_REPORT: u8 = 19;

impl Row for StatusRow {
    ghost octets = { status_octets };

    ghost fits = { λ row. Unit {0} };

    ghost SIZE = { 5 };

    const SIZE: u32 = 5;

    fn put(self, out: &mut [u8], at: usize) -> usize {
        put_u16(out, at, self.store);
        put_u8(out, at + 2, u8::from(self.storage));
        put_u8(out, at + 3, u8::from(self.open_on));
        put_u8(out, at + 4, u8::from(self.range));
        at + 5
    }

    ghost sized = { λ row. refl };
}

/// Writes the report of what is on in packet stores, at most 32, at the front of `out`, which has
/// at least 1,024 octets, and answers the report's length: 20 octets and five a store. The report
/// is of service 15 (ECSS-E-ST-70-41C, 6.15); it has the number of stores in one octet, and of each
/// its identifier in two, and in one each whether its storage is on, whether its open retrieval is
/// on, and whether a range retrieval stands. The rest of `out` stays.
pub fn write_status(head: Head, rows: &[StatusRow], out: &mut [u8]) -> u32
    requires count { head.count < 16384 }
    requires moment { head.moment < 2 ^ 48 }
    requires few { length rows.now ≤ 32 }
    requires room { 1024 ≤ length out.old }
    ensures length { result ≡ length (report_packet head.count head.moment
        (status_report rows.now)) }
    ensures report { let packet = report_packet head.count head.moment (status_report rows.now)
        in out.new ≡ packet ++ drop (length packet) out.old }
    ensures short { result ≤ 1024 }
    ensures packet { IsPacket (report_packet head.count head.moment (status_report rows.now)) }
{
    write_listed(head, STORAGE, STATUS_REPORT, rows, out)
}
