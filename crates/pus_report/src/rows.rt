// Lists in reports: things of one size one behind another, behind one octet with their number.
ghost use Rattle.std.specs.Prelude.{◌≡◌, ◌+◌, ◌*◌, ◌<◌, ◌≤◌, ◌^◌, ◌++◌, ℕ, All, List, length, drop};
ghost use Rattle.octet_fields.specs.Fields.{Writes};
ghost use Rattle.space_packet.specs.Packet.{IsPacket};
ghost use Rattle.pst_model.specs.Reports.{listed_octets, listed_report, report_packet};

use crate::head::{Head, put_head};
use octet_fields::put_u8;
use pus_header::TM_HEADERS;

/// What a report lists: a pattern, or what it says of one packet store.
pub(crate) trait Row: Copy {
    /// Its octets.
    ghost octets: { Self → List ℕ };

    /// Its numbers fit their octets.
    ghost fits: { Self → Type 0 };

    ghost SIZE: { ℕ };

    /// How many octets it has.
    const SIZE: u32;

    /// Writes its octets at `at`, and answers the place behind them.
    fn put(self, out: &mut [u8], at: usize) -> usize
        requires fits { fits self }
        requires room { at + SIZE ≤ length out.old }
        ensures place { result ≡ at + SIZE }
        ensures written { Writes out.old out.new at (octets self) };

    ghost sized: { (row : Self) → length (octets row) ≡ SIZE };
}

/// Writes rows, behind one octet with their number.
pub(crate) fn put_rows<R: Row>(rows: &[R], out: &mut [u8], at: usize)
    requires few { length rows.now ≤ 64 }
    requires fit { All R.fits rows.now }
    requires room { at + 1 + R.SIZE * length rows.now ≤ length out.old }
    ensures { Writes out.old out.new at (listed_octets R.octets rows.now) }
{
    put_u8(out, at, rows.len() as u8);
    let mut place = at + 1;
    for row in rows {
        place = row.put(out, place);
    }
}

/// Writes the report that lists rows, at most 64, at the front of `out`, and answers its length.
/// The rest of `out` stays.
pub(crate) fn write_listed<R: Row>(
    head: Head,
    service: u8,
    subtype: u8,
    rows: &[R],
    out: &mut [u8],
) -> u32
    requires count { head.count < 16384 }
    requires moment { head.moment < 2 ^ 48 }
    requires few { length rows.now ≤ 64 }
    requires fit { All R.fits rows.now }
    requires size { R.SIZE * length rows.now ≤ 1004 }
    requires room { 1024 ≤ length out.old }
    ensures length { result
        ≡ length (report_packet head.count head.moment
        (listed_report service subtype R.octets rows.now)) }
    ensures report { let packet = report_packet head.count head.moment
        (listed_report service subtype R.octets rows.now)
        in out.new ≡ packet ++ drop (length packet) out.old }
    ensures short { result ≤ 1024 }
    ensures packet { IsPacket (report_packet head.count head.moment
        (listed_report service subtype R.octets rows.now)) }
{
    let content = 1 + R::SIZE * rows.len() as u32;
    put_head(head, service, subtype, content, out);
    put_rows(rows, out, TM_HEADERS);
    TM_HEADERS as u32 + content
}
