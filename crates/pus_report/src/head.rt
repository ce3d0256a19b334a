// What stands in front of each report's content.
ghost use Rattle.std.specs.Prelude.{◌<◌, ◌≤◌, ◌^◌, length};
ghost use Rattle.octet_fields.specs.Fields.{Writes};
ghost use Rattle.pus_header.specs.Reports.{report_head};

use pus_header::write_tm_head;

/// What a report is told beside its content.
#[derive(Clone, Copy, Debug, PartialEq, Eq)]
pub struct Head {
    /// The packet sequence count, below 16,384.
    pub count: u16,
    /// The time of the report in 1/65,536 s, below 2^48.
    pub moment: u64,
}

// Writes the headers of a report with so many octets of content at the front.
pub(crate) fn put_head(head: Head, service: u8, subtype: u8, content: u32, out: &mut [u8])
    requires count { head.count < 16384 }
    requires moment { head.moment < 2 ^ 48 }
    requires content { content ≤ 4077 }
    requires room { 19 ≤ length out.old }
    ensures { Writes out.old out.new 0 (report_head head.count service subtype head.moment
        content) }
{
    write_tm_head(head.count, service, subtype, head.moment, content, out);
}
