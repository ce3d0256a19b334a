// The lines that are written together: those of the first requests, those with an arrival, and a grant at the end.
ghost use Rattle.std.specs.Prelude.{◌≡◌, ◌≤◌, ◌<◌, ◌+◌, ◌*◌, ◌^◌, ◌++◌, if◌then◌else◌, [], drop, length};
ghost use Rattle.octet_fields.specs.Fields.{Writes};
ghost use Rattle.traffic_gen.specs.Lines.{packet_line, text_of, timed_line};
ghost use Rattle.traffic_gen.specs.Steps.{next_of, state_behind};
ghost use Rattle.traffic_gen.specs.Traffic.{after_draws, drawn, drawn_packet, length_by, pass, retrieval, time_of, where_so};

use crate::draws::{draw, drawn};
use crate::lines::{put_packet, put_timed};
use crate::packets::{LARGEST, time_of, write_arrival};
use crate::requests::{put_retrieval, put_setup};

// Puts the line of a command that has a time alone where the test holds, and answers the place behind it.
fn put_where(so: bool, letter: u8, moment: u64, out: &mut [u8], at: usize) -> usize
    requires moment { moment < 2 ^ 48 }
    requires room { at + 15 ≤ length out.old }
    ensures few { result ≤ at + 15 }
    ensures end { result ≡ at + length (if so then timed_line letter moment else []) }
    ensures line { Writes out.old out.new at (if so then timed_line letter moment else []) }
{
    if so {
        put_timed(letter, moment, out, at)
    } else {
        at
    }
}

// Puts the retrieval of a store where the test holds, and answers the place behind it.
fn put_retrieval_where(
    so: bool,
    number: u32,
    count: u16,
    store: u16,
    out: &mut [u8],
    at: usize,
) -> usize
    requires number { number < 100000 }
    requires count { count < 16384 }
    requires room { at + 1064 ≤ length out.old }
    ensures few { result ≤ at + 1064 }
    ensures end { result ≡ at + length (text_of (where_so so (retrieval number count store))) }
    ensures line { Writes out.old out.new at (text_of (where_so so (retrieval number count store))) }
{
    if so {
        put_retrieval(number, count, store, out, at)
    } else {
        at
    }
}

// Writes the packet of the arrival with this number, by the draws from this state on, at the front of `out`, and answers
// its length.
fn write_drawn(number: u32, state: u64, out: &mut [u8]) -> usize
    requires number { number < 100000 }
    requires room { 1100 ≤ length out.old }
    ensures length { result ≡ length_by (drawn (after_draws state)) }
    ensures packet { out.new ≡ drawn_packet number state ++ drop (length_by (drawn (after_draws state))) out.old }
{
    let first = draw(state);
    let second = draw(first);
    let third = draw(second);
    write_arrival(number, drawn(first), drawn(second), drawn(third), out)
}

// Puts the line of the arrival with this number at the front of `out`, and answers the place behind it.
fn put_arrival(number: u32, state: u64, out: &mut [u8]) -> usize
    requires number { number < 100000 }
    requires room { 2216 ≤ length out.old }
    ensures few { result ≤ 2216 }
    ensures end { result ≡ length (packet_line 65 (time_of number) (drawn_packet number state)) }
    ensures line { Writes out.old out.new 0 (packet_line 65 (time_of number) (drawn_packet number state)) }
{
    let mut packet = [0; LARGEST];
    let length = write_drawn(number, state, &mut packet);
    put_packet(b'A', time_of(number), &packet[..length], out, 0)
}

// Puts the lines of the arrival with this number, of so many, by the draws from this state on, at the front of `out`, and
// answers the place behind them.
fn put_pass(total: u32, number: u32, state: u64, out: &mut [u8]) -> usize
    requires number { number < total }
    requires few { total ≤ 100000 }
    requires room { 5400 ≤ length out.old }
    ensures few { result ≤ 5400 }
    ensures end { result ≡ length (text_of (pass total number state)) }
    ensures lines { Writes out.old out.new 0 (text_of (pass total number state)) }
{
    let moment = time_of(number);
    let end = put_arrival(number, state, out);
    let end = put_where(number % 4 == 3, b'G', moment, out, end);
    let end = put_where(number % 64 == 63, b'I', moment, out, end);
    let end = put_retrieval_where(number == total / 2, number, 5, 2, out, end);
    put_retrieval_where(number == total - 1, number, 6, 3, out, end)
}

/// Puts the lines that come next, where lines were made so often, at the front of `out`, and answers the place behind
/// them.
pub fn put_next(total: u32, made: u32, state: u64, out: &mut [u8]) -> usize
    requires few { total ≤ 100000 }
    requires room { 5400 ≤ length out.old }
    ensures few { result ≤ 5400 }
    ensures end { result ≡ length (text_of (next_of total state made)) }
    ensures lines { Writes out.old out.new 0 (text_of (next_of total state made)) }
{
    if made == 0 {
        put_setup(out)
    } else if made <= total {
        put_pass(total, made - 1, state, out)
    } else if made <= 2 * total {
        put_timed(b'G', time_of(total), out, 0)
    } else {
        0
    }
}

/// The state behind the lines that come next.
pub fn next_state(total: u32, made: u32, state: u64) -> u64
    ensures { result ≡ state_behind total state made }
{
    if made != 0 && made <= total {
        draw(draw(draw(state)))
    } else {
        state
    }
}
