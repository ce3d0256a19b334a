// Changes written into the text of an entry.
ghost use Rattle.std.specs.Prelude.{◌≡◌, ◌+◌, ◌*◌, ◌≤◌, ◌<◌, ◌^◌, ◌++◌, ◌∷◌, [], length};
ghost use Rattle.octet_fields.specs.Fields.{Writes, big_bytes};
ghost use Rattle.control_defs.specs.PatternOctets.{pattern_octets};
ghost use Rattle.store_directory.specs.Entries.{CanBeWritten, add_octet, change_octets, links_octets};
ghost use Rattle.store_directory.specs.Kept.{change_of};

use crate::change::Change;
use crate::change_text::{CLOCK, FORWARD, GONE, LINKS, PUT, SWAP, TYPES};
use crate::link_text::{put_link_list, put_links};
use crate::row_text::put_row;
use control_defs::{Pattern, put_pattern};
use octet_fields::{put_u8, put_u16, put_u32, put_u48};
use record_view::Link;

/// Writes a change at `at`, and answers the place behind it: its tag and its fields, as an entry
/// has them. The rest of `out` stays. An entry is written by one call for each change.
pub fn write_change(change: &Change<'_>, at: u32, out: &mut [u8]) -> u32
    requires fits { CanBeWritten (change_of change.now) }
    requires room { at + length (change_octets (change_of change.now)) ≤ length out.old }
    requires place { at + length (change_octets (change_of change.now)) < 2 ^ 32 }
    ensures place { result ≡ at + length (change_octets (change_of change.now)) }
    ensures written { Writes out.old out.new at (change_octets (change_of change.now)) }
{
    put_change(change, out, at as usize) as u32
}

fn put_change(change: &Change<'_>, out: &mut [u8], at: usize) -> usize
    requires fits { CanBeWritten (change_of change.now) }
    requires room { at + length (change_octets (change_of change.now)) ≤ length out.old }
    ensures place { result ≡ at + length (change_octets (change_of change.now)) }
    ensures written { Writes out.old out.new at (change_octets (change_of change.now)) }
{
    match *change {
        Change::Clock { now, reports } => put_clock(now, reports, out, at),
        Change::Put(row) => {
            put_u8(out, at, PUT);
            put_row(&row, out, at + 1)
        }
        Change::Gone(store) => put_store(GONE, store, out, at),
        Change::Forward { add, pattern } => {
            put_u8(out, at, FORWARD);
            put_edit(add, pattern, out, at + 1)
        }
        Change::Types {
            store,
            add,
            pattern,
        } => {
            let place = put_store(TYPES, store, out, at);
            put_edit(add, pattern, out, place)
        }
        Change::Links { store, links } => {
            let place = put_store(LINKS, store, out, at);
            put_link_list(links, out, place)
        }
        Change::Swap {
            store,
            block,
            first,
        } => {
            let place = put_store(SWAP, store, out, at);
            put_links(&[Link { block, first }], out, place)
        }
    }
}

fn put_clock(now: u64, reports: u16, out: &mut [u8], at: usize) -> usize
    requires fits { now < 2 ^ 48 }
    requires room { at + 9 ≤ length out.old }
    ensures place { result ≡ at + 9 }
    ensures written { Writes out.old out.new at (1 ∷ big_bytes 6 now ++ big_bytes 2 reports) }
{
    put_u8(out, at, CLOCK);
    put_u48(out, at + 1, now);
    put_u16(out, at + 7, reports);
    at + 9
}

// Writes a tag and the store of its change.
fn put_store(tag: u8, store: u16, out: &mut [u8], at: usize) -> usize
    requires { at + 3 ≤ length out.old }
    ensures place { result ≡ at + 3 }
    ensures written { Writes out.old out.new at (tag ∷ big_bytes 2 store) }
{
    put_u8(out, at, tag);
    put_u16(out, at + 1, store);
    at + 3
}

// Writes whether a pattern is added, and the pattern.
fn put_edit(add: bool, pattern: Pattern, out: &mut [u8], at: usize) -> usize
    requires { at + 6 ≤ length out.old }
    ensures place { result ≡ at + 6 }
    ensures written { Writes out.old out.new at (add_octet add ∷ pattern_octets pattern) }
{
    put_u8(out, at, u8::from(add));
    put_pattern(pattern, out, at + 1)
}
