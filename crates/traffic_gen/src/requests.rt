// The requests among the traffic.
ghost use Rattle.std.specs.Prelude.{◌≡◌, ◌+◌, ◌≤◌, ◌<◌, ◌^◌, ◌++◌, ◌∷◌, [], length};
ghost use Rattle.octet_fields.specs.Fields.{Writes};
ghost use Rattle.pst_model.specs.Requests.{AreAsked, request_packet, service_of_items, subtype_of_items};
ghost use Rattle.traffic_gen.specs.Lines.{command_line, text_of};
ghost use Rattle.traffic_gen.specs.Traffic.{asking, making, retrieval, setup, typing};

use crate::lines::put_packet;
use crate::packets::time_of;
use control_defs::{Instruction, Pattern, StoreKind};
use pus_request::write_request;

/// Acceptance and completion are reported.
const FLAGS: u8 = 9;

/// The time of the requests that the traffic begins with.
const FIRST: u64 = 1;

// Puts the line of a request for these instructions at `at`, and answers the place behind it. The rest stays.
fn put_request(count: u16, moment: u64, items: &[Instruction], out: &mut [u8], at: usize) -> usize
    requires count { count < 16384 }
    requires moment { moment < 2 ^ 48 }
    requires asked { AreAsked (service_of_items items.now) (subtype_of_items items.now) items.now }
    requires room { at + 1064 ≤ length out.old }
    ensures end { result ≡ at + length (command_line (asking moment count items.now)) }
    ensures few { result ≤ at + 1064 }
    ensures line { Writes out.old out.new at (command_line (asking moment count items.now)) }
{
    let mut packet = [0; 524];
    let size = write_request(count, FLAGS, 0, items, &mut packet) as usize;
    put_packet(b'R', moment, &packet[..size], out, at)
}

// Puts the line of the request that makes the stores at the front of `out`, and answers the place behind it.
fn put_making(out: &mut [u8]) -> usize
    requires { 1064 ≤ length out.old }
    ensures few { result ≤ 1064 }
    ensures end { result ≡ length (command_line making) }
    ensures line { Writes out.old out.new 0 (command_line making) }
{
    let made = [
        Instruction::Create {
            store: 2,
            kind: StoreKind::Circular,
            size: 1000,
            channel: 2,
        },
        Instruction::Create {
            store: 3,
            kind: StoreKind::Bounded,
            size: 2000,
            channel: 3,
        },
        Instruction::Create {
            store: 4,
            kind: StoreKind::Circular,
            size: 200,
            channel: 4,
        },
    ];
    put_request(0, FIRST, &made, out, 0)
}

// Puts the line of the request that gives the stores their patterns at `at`, and answers the place behind it. The rest
// stays.
fn put_typing(out: &mut [u8], at: usize) -> usize
    requires { at + 1064 ≤ length out.old }
    ensures few { result ≤ at + 1064 }
    ensures end { result ≡ at + length (command_line typing) }
    ensures line { Writes out.old out.new at (command_line typing) }
{
    let typed = [
        Instruction::AddTypes {
            store: 2,
            pattern: Pattern::App(100),
        },
        Instruction::AddTypes {
            store: 3,
            pattern: Pattern::Service(101, 3),
        },
        Instruction::AddTypes {
            store: 4,
            pattern: Pattern::Kind(102, 5, 2),
        },
    ];
    put_request(1, FIRST, &typed, out, at)
}

/// Puts the lines of the first requests at the front of `out`, and answers the place behind them.
pub fn put_setup(out: &mut [u8]) -> usize
    requires { 5400 ≤ length out.old }
    ensures few { result ≤ 5400 }
    ensures end { result ≡ length (text_of setup) }
    ensures lines { Writes out.old out.new 0 (text_of setup) }
{
    let enabled = [
        Instruction::Enable(2),
        Instruction::Enable(3),
        Instruction::Enable(4),
    ];
    let forwarded = [Instruction::ForwardAdd(Pattern::Service(103, 5))];
    let resumed = [Instruction::Resume(2)];
    let end = put_making(out);
    let end = put_typing(out, end);
    let end = put_request(2, FIRST, &enabled, out, end);
    let end = put_request(3, FIRST, &forwarded, out, end);
    put_request(4, FIRST, &resumed, out, end)
}

/// Puts the line of the retrieval of a store, from the first arrival to the one with this number, at `at`, and answers
/// the place behind it. The rest stays.
pub fn put_retrieval(number: u32, count: u16, store: u16, out: &mut [u8], at: usize) -> usize
    requires number { number < 100000 }
    requires count { count < 16384 }
    requires room { at + 1064 ≤ length out.old }
    ensures end { result ≡ at + length (command_line (retrieval number count store)) }
    ensures few { result ≤ at + 1064 }
    ensures line { Writes out.old out.new at (command_line (retrieval number count store)) }
{
    let moment = time_of(number);
    let items = [Instruction::StartRange {
        store,
        t1: 65_536,
        t2: moment,
    }];
    put_request(count, moment, &items, out, at)
}
