// The configuration report of packet stores (ECSS-E-ST-70-41C, 6.15).
ghost use Rattle.std.specs.Prelude.{◌≡◌, ◌+◌, ◌*◌, ◌<◌, ◌≤◌, ◌^◌, ◌++◌, refl, length, drop};
ghost use Rattle.octet_fields.specs.Fields.{Writes};
ghost use Rattle.space_packet.specs.Packet.{IsPacket};
ghost use Rattle.pst_model.specs.Reports.{config_octets, configuration_report, listed_octets, report_packet};

use crate::head::Head;
use crate::rows::{Row, write_listed};
use control_defs::STORAGE;
use octet_fields::{put_u8, put_u16, put_u32};
use pst_model::ConfigRow;

/// The message subtype of the report.
const CONFIGURATION_REPORT: u8 = 23;

impl Row for ConfigRow {
    ghost octets = { config_octets };

    ghost fits = { λ row. Unit {0} };

    ghost SIZE = { 8 };

    const SIZE: u32 = 8;

    fn put(self, out: &mut [u8], at: usize) -> usize {
        put_u16(out, at, self.store);
        put_u8(out, at + 2, self.kind.octet());
        put_u32(out, at + 3, self.size);
        put_u8(out, at + 7, self.channel);
        at + 8
    }

    ghost sized = { λ row. refl };
}

/// Writes the report of how packet stores are made, at most 32 of them, at the front of `out`,
/// which has at least 1,024 octets, and answers the report's length: 20 octets and eight a store.
/// The report is of service 15 (ECSS-E-ST-70-41C, 6.15); it has the number of stores in one octet,
/// and of each its identifier in two, 0 of a circular store or 1 of a bounded one in one, its size
/// in pages of 256 octets in four, and its virtual channel in one. The rest of `out` stays.
pub fn write_configuration(head: Head, rows: &[ConfigRow], out: &mut [u8]) -> u32
    requires count { head.count < 16384 }
    requires moment { head.moment < 2 ^ 48 }
    requires few { length rows.now ≤ 32 }
    requires room { 1024 ≤ length out.old }
    ensures length { result ≡ length (report_packet head.count head.moment
        (configuration_report rows.now)) }
    ensures report { let packet = report_packet head.count head.moment
        (configuration_report rows.now)
        in out.new ≡ packet ++ drop (length packet) out.old }
    ensures short { result ≤ 1024 }
    ensures packet { IsPacket (report_packet head.count head.moment
        (configuration_report rows.now)) }
{
    write_listed(head, STORAGE, CONFIGURATION_REPORT, rows, out)
}
