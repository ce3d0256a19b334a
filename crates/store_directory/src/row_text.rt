// Rows as 29 octets: identifier (2), kind (1), size (4), channel (1), flags (1), first (4), count
// (4), behind (4), and the range's next (4) and end (4), which are 0 where there is no range. The
// flags are storage 1, open retrieval 2, told 4 and range 8.
ghost use Rattle.std.specs.Prelude.{◌≡◌, ◌+◌, ◌≤◌, ◌++◌, ◌∷◌, [], IfSome, length};
ghost use Rattle.octet_fields.specs.Fields.{Writes, big_bytes};
ghost use Rattle.store_directory.specs.Rows.{FitsRow, flag_bit, flags_of, is_row_text, range_in, row_by, row_in, row_octets};

use crate::row::{Row, positions_of};
use control_defs::StoreKind;
use octet_fields::{put_u8, put_u16, put_u32, u16_at, u32_at};

/// The octets of a row.
pub(crate) const ROW: usize = 29;

/// The row that the 29 octets at the front spell. None where there are fewer, the kind is above 1,
/// a flag above 8 is set, or positions stand there without a range.
#[tactic(auto, unfolding(crate::specs::Rows::row_in))]
pub(crate) fn row_at(octets: &[u8]) -> Option<Row>
    ensures value { result ≡ row_in octets.now }
    ensures fits { IfSome result FitsRow }
    ensures long { IfSome result (λ row. 29 ≤ length octets.now) }
{
    if !is_row_text(octets) {
        return None;
    }
    Some(row_by(octets))
}

// Whether the front may be the text of a row.
fn is_row_text(octets: &[u8]) -> bool
    ensures { result ≡ is_row_text octets.now }
{
    octets.len() >= ROW
        && octets[2] <= 1
        && octets[8] < 16
        && (octets[8] >= 8 || u32_at(octets, 21) == 0 && u32_at(octets, 25) == 0)
}

// The row whose fields stand at the front.
fn row_by(octets: &[u8]) -> Row
    requires { 29 ≤ length octets.now }
    ensures value { result ≡ row_by octets.now }
    ensures fits { FitsRow result }
{
    let flags = octets[8];
    Row {
        identifier: u16_at(octets, 0),
        kind: StoreKind::from_octet(octets[2]),
        size: u32_at(octets, 3),
        channel: octets[7],
        storage: flags % 2 == 1,
        open_on: flags / 2 % 2 == 1,
        told: flags / 4 % 2 == 1,
        first: u32_at(octets, 9),
        count: u32_at(octets, 13),
        behind: u32_at(octets, 17),
        range: range_at(octets),
    }
}

fn range_at(octets: &[u8]) -> Option<(u32, u32)>
    requires { 29 ≤ length octets.now }
    ensures { result ≡ range_in octets.now }
{
    if octets[8] >= 8 {
        Some((u32_at(octets, 21), u32_at(octets, 25)))
    } else {
        None
    }
}

fn flag_bit(set: bool, bit: u8) -> u8
    ensures value { result ≡ flag_bit set bit }
    ensures most { result ≤ bit }
{
    if set { bit } else { 0 }
}

fn flags_of(row: &Row) -> u8
    ensures { result ≡ flags_of row.now }
{
    let high = flag_bit(row.told, 4) + flag_bit(row.range.is_some(), 8);
    flag_bit(row.storage, 1) + (flag_bit(row.open_on, 2) + high)
}

// Writes what a row says of its store.
fn put_store(
    identifier: u16,
    kind: u8,
    size: u32,
    channel: u8,
    flags: u8,
    out: &mut [u8],
    at: usize,
)
    requires { at + 9 ≤ length out.old }
    ensures { Writes out.old out.new at
        (big_bytes 2 identifier ++ kind ∷ big_bytes 4 size ++ channel ∷ flags ∷ []) }
{
    put_u16(out, at, identifier);
    put_u8(out, at + 2, kind);
    put_u32(out, at + 3, size);
    put_u8(out, at + 7, channel);
    put_u8(out, at + 8, flags);
}

// Writes which records a store holds, and its positions.
fn put_records(first: u32, count: u32, behind: u32, range: (u32, u32), out: &mut [u8], at: usize)
    requires { at + 20 ≤ length out.old }
    ensures { Writes out.old out.new at (big_bytes 4 first ++ big_bytes 4 count
        ++ big_bytes 4 behind ++ big_bytes 4 range.0 ++ big_bytes 4 range.1) }
{
    put_u32(out, at, first);
    put_u32(out, at + 4, count);
    put_u32(out, at + 8, behind);
    put_u32(out, at + 12, range.0);
    put_u32(out, at + 16, range.1);
}

/// Writes a row at `at`, and answers the place behind it. The rest of `out` stays.
pub(crate) fn put_row(row: &Row, out: &mut [u8], at: usize) -> usize
    requires { at + 29 ≤ length out.old }
    ensures place { result ≡ at + 29 }
    ensures written { Writes out.old out.new at (row_octets row.now) }
{
    let flags = flags_of(row);
    let range = positions_of(row.range);
    put_store(
        row.identifier,
        row.kind.octet(),
        row.size,
        row.channel,
        flags,
        out,
        at,
    );
    put_records(row.first, row.count, row.behind, range, out, at + 9);
    at + ROW
}
