// The lines of a listing, each written into the front of a buffer of at least 512 octets.
ghost use Rattle.std.specs.Prelude.{◌≡◌, ◌≤◌, ◌<◌, ◌+◌, ◌*◌, ◌^◌, ◌∷◌, length};
ghost use Rattle.listing.specs.Rows.{content_words, row_words};
ghost use Rattle.listing.specs.Words.{HoldsLine, IsShort, spaced, text_of};
ghost use Rattle.octet_fields.specs.Fields.{Writes};
ghost use Rattle.pst_model.specs.Listing.{kind_word, on_word, packet_line, pattern_words, store_words, table_line, words_line, yes_word};
ghost use Rattle.pst_model.specs.Table.{Store, Table};
ghost use Rattle.store_policy.specs.Shown.{IsShown};

use crate::words::{Word, end_line, put_hex, put_range, put_text, put_time, put_words};
use control_defs::{Pattern, StoreKind};
use store_directory::Row;
use time_index::Index;

fn kind_name(kind: StoreKind) -> Word
    ensures text { text_of result ≡ kind_word kind }
    ensures short { IsShort result }
{
    match kind {
        StoreKind::Circular => Word::Name("circular"),
        StoreKind::Bounded => Word::Name("bounded"),
    }
}

fn on_name(on: bool) -> Word
    ensures text { text_of result ≡ on_word on }
    ensures short { IsShort result }
{
    if on {
        Word::Name("on")
    } else {
        Word::Name("off")
    }
}

fn yes_name(yes: bool) -> Word
    ensures text { text_of result ≡ yes_word yes }
    ensures short { IsShort result }
{
    if yes {
        Word::Name("yes")
    } else {
        Word::Name("no")
    }
}

/// Writes the line of the clock and of the count of reports, and answers its octets. The time is
/// below 2^48.
pub fn write_clock(now: u64, reports: u16, out: &mut [u8]) -> usize
    requires range { now < 2 ^ 48 }
    requires room { 512 ≤ length out.old }
    ensures line { (table : Table) → table.now ≡ now → table.reports ≡ reports
        → HoldsLine out.old out.new result (table_line table) }
    ensures same { length out.new ≡ length out.old }
    ensures within { result ≤ length out.new }
{
    let end = put_text(out, 0, "now".as_bytes());
    let end = put_time(out, end, now);
    let reports = Word::Number(u32::from(reports));
    let end = put_words(out, end, &[Word::Name("reports"), reports]);
    end_line(out, end)
}

// Puts the words of a pattern.
fn put_pattern(out: &mut [u8], at: usize, pattern: Pattern) -> usize
    requires room { at + 84 ≤ length out.old }
    ensures few { result ≤ at + 84 }
    ensures end { result ≡ at + length (spaced (pattern_words pattern)) }
    ensures writes { Writes out.old out.new at (spaced (pattern_words pattern)) }
{
    match pattern {
        Pattern::Every => put_words(out, at, &[Word::Name("every")]),
        Pattern::App(apid) => {
            let apid = Word::Number(u32::from(apid));
            put_words(out, at, &[Word::Name("app"), apid])
        }
        Pattern::Service(apid, service) => {
            let apid = Word::Number(u32::from(apid));
            let service = Word::Number(u32::from(service));
            put_words(out, at, &[Word::Name("service"), apid, service])
        }
        Pattern::Kind(apid, service, subtype) => {
            let apid = Word::Number(u32::from(apid));
            let service = Word::Number(u32::from(service));
            let subtype = Word::Number(u32::from(subtype));
            put_words(out, at, &[Word::Name("kind"), apid, service, subtype])
        }
    }
}

/// Writes the line of a pattern behind a name of at most 20 octets, and answers its octets.
pub fn write_pattern(name: &str, pattern: Pattern, out: &mut [u8]) -> usize
    requires name { length name.now ≤ 20 }
    requires room { 512 ≤ length out.old }
    ensures { HoldsLine out.old out.new result (words_line (name.now ∷ pattern_words pattern)) }
{
    let end = put_text(out, 0, name.as_bytes());
    let end = put_pattern(out, end, pattern);
    end_line(out, end)
}

// Puts the words of a row up to its range.
fn put_row(out: &mut [u8], at: usize, row: &Row) -> usize
    requires room { at + 273 ≤ length out.old }
    ensures few { result ≤ at + 273 }
    ensures end { result ≡ at + length (spaced (row_words row.now)) }
    ensures writes { Writes out.old out.new at (spaced (row_words row.now)) }
{
    let words = [
        Word::Number(u32::from(row.identifier)),
        kind_name(row.kind),
        Word::Name("size"),
        Word::Number(row.size),
        Word::Name("channel"),
        Word::Number(u32::from(row.channel)),
        Word::Name("storage"),
        on_name(row.storage),
        Word::Name("open"),
        on_name(row.open_on),
        Word::Name("behind"),
        Word::Number(row.behind),
        Word::Name("range"),
    ];
    put_words(out, at, &words)
}

// Puts the words of a store behind its range.
fn put_content(out: &mut [u8], at: usize, told: bool, index: &Index) -> usize
    requires room { at + 126 ≤ length out.old }
    ensures few { result ≤ at + 126 }
    ensures end { result ≡ at + length (spaced (content_words told index.now)) }
    ensures writes { Writes out.old out.new at (spaced (content_words told index.now)) }
{
    let words = [
        Word::Name("told"),
        yes_name(told),
        Word::Name("packets"),
        Word::Number(index.len()),
        Word::Name("pages"),
        Word::Number(index.pages()),
    ];
    put_words(out, at, &words)
}

/// Writes the line of a store that a row and an index show, and answers its octets.
pub fn write_store(row: &Row, index: &Index, out: &mut [u8]) -> usize
    requires room { 512 ≤ length out.old }
    ensures line { (store : Store) → IsShown store row.now index.now
        → HoldsLine out.old out.new result (words_line (store_words store)) }
    ensures same { length out.new ≡ length out.old }
    ensures within { result ≤ length out.new }
{
    let end = put_text(out, 0, "store".as_bytes());
    let end = put_row(out, end, row);
    let end = put_range(out, end, row.range);
    let end = put_content(out, end, row.told, index);
    end_line(out, end)
}

/// Writes the line of a packet with its storage time, below 2^48, and answers its octets.
pub fn write_packet(time: u64, packet: &[u8], out: &mut [u8]) -> usize
    requires range { time < 2 ^ 48 }
    requires room { 21 + 2 * length packet.now ≤ length out.old }
    ensures { HoldsLine out.old out.new result
        (packet_line (record { time = time; octets = packet.now })) }
{
    let end = put_text(out, 0, "packet".as_bytes());
    let end = put_time(out, end, time);
    let end = put_hex(out, end, packet);
    end_line(out, end)
}
