// The headers of a report, as they are written.
ghost use Rattle.std.specs.Prelude.{◌≡◌, ◌++◌, ◌<◌, ◌≤◌, ◌^◌, length, drop};
ghost use Rattle.pus_header.specs.Reports.{report_head};

use crate::numbers::{APID, PUS_VERSION};
use octet_fields::{put_u8, put_u16, put_u48};
use space_packet::{Primary, UNSEGMENTED, write_primary};

/// Writes the two headers of a report with `body` octets of application data, at most 4,077, into
/// the first 19 octets of `out`, and leaves the rest. `out` has at least 19 octets. The report is a
/// telemetry packet of APID 10 with this sequence count, below 16,384 (CCSDS 133.0-B, 4.1.3); its
/// secondary header (ECSS-E-ST-70-41C, 7.4.3) has PUS version number 2, the time reference status
/// 0, the service type, the message subtype, the message type counter 0, the destination identifier
/// 0 and the moment: a time of 4 octets of seconds and 2 of their parts without a preamble (CCSDS
/// 301.0-B, 3.2), which is one number of 1/65,536 s below 2^48.
pub fn write_tm_head(count: u16, service: u8, subtype: u8, moment: u64, body: u32, out: &mut [u8])
    requires count_fits { count < 16384 }
    requires moment_fits { moment < 2 ^ 48 }
    requires body_fits { body ≤ 4077 }
    requires room { 19 ≤ length out.old }
    ensures { out.new ≡ report_head count service subtype moment body ++ drop 19 out.old }
{
    let head = Primary {
        command: false,
        secondary: true,
        apid: APID,
        flags: UNSEGMENTED,
        count,
        length: 13 + body as u16 - 1,
    };
    write_primary(head, out);
    put_u8(out, 6, PUS_VERSION * 16);
    put_u8(out, 7, service);
    put_u8(out, 8, subtype);
    put_u16(out, 9, 0);
    put_u16(out, 11, 0);
    put_u48(out, 13, moment);
}
