// Instructions as the items of a request.
ghost use Rattle.std.specs.Prelude.{◌≡◌, ◌+◌, ◌≤◌, ◌<◌, ◌++◌, ◌∷◌, ◌^◌, [], length};
ghost use Rattle.octet_fields.specs.Fields.{Writes, big_bytes};
ghost use Rattle.control_defs.specs.Instructions.{IsInstruction, kind_octet};
ghost use Rattle.pst_model.specs.Items.{item_of};
ghost use Rattle.control_defs.specs.PatternOctets.{pattern_octets};

use control_defs::{Instruction, Pattern, StoreKind, put_pattern};
use octet_fields::{put_u8, put_u16, put_u32, put_u48};

// Each of these writes the fields of an item at `at`, one behind another, answers the place behind
// them, and leaves the rest.

fn put_store(store: u16, out: &mut [u8], at: usize) -> usize
    requires { at + 2 ≤ length out.old }
    ensures end { result ≡ at + 2 }
    ensures item { Writes out.old out.new at (big_bytes 2 store) }
{
    put_u16(out, at, store);
    at + 2
}

fn put_types(store: u16, pattern: Pattern, out: &mut [u8], at: usize) -> usize
    requires { at + 7 ≤ length out.old }
    ensures end { result ≡ at + 7 }
    ensures item { Writes out.old out.new at (big_bytes 2 store ++ pattern_octets pattern) }
{
    put_u16(out, at, store);
    put_pattern(pattern, out, at + 2);
    at + 7
}

fn put_time(store: u16, time: u64, out: &mut [u8], at: usize) -> usize
    requires room { at + 8 ≤ length out.old }
    requires time { time < 2 ^ 48 }
    ensures end { result ≡ at + 8 }
    ensures item { Writes out.old out.new at (big_bytes 2 store ++ big_bytes 6 time) }
{
    put_u16(out, at, store);
    put_u48(out, at + 2, time);
    at + 8
}

fn put_range(store: u16, t1: u64, t2: u64, out: &mut [u8], at: usize) -> usize
    requires room { at + 14 ≤ length out.old }
    requires t1 { t1 < 2 ^ 48 }
    requires t2 { t2 < 2 ^ 48 }
    ensures end { result ≡ at + 14 }
    ensures item { Writes out.old out.new at
        ((big_bytes 2 store ++ big_bytes 6 t1) ++ big_bytes 6 t2) }
{
    put_u16(out, at, store);
    put_u48(out, at + 2, t1);
    put_u48(out, at + 8, t2);
    at + 14
}

fn put_copy(from: u16, to: u16, t1: u64, t2: u64, out: &mut [u8], at: usize) -> usize
    requires room { at + 16 ≤ length out.old }
    requires t1 { t1 < 2 ^ 48 }
    requires t2 { t2 < 2 ^ 48 }
    ensures end { result ≡ at + 16 }
    ensures item { Writes out.old out.new at
        (((big_bytes 2 from ++ big_bytes 2 to) ++ big_bytes 6 t1) ++ big_bytes 6 t2) }
{
    put_u16(out, at, from);
    put_u16(out, at + 2, to);
    put_u48(out, at + 4, t1);
    put_u48(out, at + 10, t2);
    at + 16
}

fn put_created(
    store: u16,
    kind: StoreKind,
    size: u32,
    channel: u8,
    out: &mut [u8],
    at: usize,
) -> usize
    requires { at + 8 ≤ length out.old }
    ensures end { result ≡ at + 8 }
    ensures item { Writes out.old out.new at
        (((big_bytes 2 store ++ kind_octet kind ∷ []) ++ big_bytes 4 size) ++ channel ∷ []) }
{
    put_u16(out, at, store);
    put_u8(out, at + 2, kind.octet());
    put_u32(out, at + 3, size);
    put_u8(out, at + 7, channel);
    at + 8
}

fn put_size(store: u16, size: u32, out: &mut [u8], at: usize) -> usize
    requires { at + 6 ≤ length out.old }
    ensures end { result ≡ at + 6 }
    ensures item { Writes out.old out.new at (big_bytes 2 store ++ big_bytes 4 size) }
{
    put_u16(out, at, store);
    put_u32(out, at + 2, size);
    at + 6
}

fn put_channel(store: u16, channel: u8, out: &mut [u8], at: usize) -> usize
    requires { at + 3 ≤ length out.old }
    ensures end { result ≡ at + 3 }
    ensures item { Writes out.old out.new at (big_bytes 2 store ++ channel ∷ []) }
{
    put_u16(out, at, store);
    put_u8(out, at + 2, channel);
    at + 3
}

/// Writes the item of an instruction at `at`, and answers the place behind it. The rest of `out`
/// stays.
pub(crate) fn put_item(item: Instruction, out: &mut [u8], at: usize) -> usize
    requires lawful { IsInstruction item }
    requires room { at + length (item_of item) ≤ length out.old }
    ensures end { result ≡ at + length (item_of item) }
    ensures item { Writes out.old out.new at (item_of item) }
{
    match item {
        Instruction::ForwardReport | Instruction::Status | Instruction::Configuration => at,
        Instruction::ForwardAdd(pattern) | Instruction::ForwardDelete(pattern) => {
            put_pattern(pattern, out, at)
        }
        Instruction::Enable(store)
        | Instruction::Disable(store)
        | Instruction::ReportTypes(store)
        | Instruction::Summary(store)
        | Instruction::Resume(store)
        | Instruction::Suspend(store)
        | Instruction::Abort(store)
        | Instruction::Remove(store)
        | Instruction::ToCircular(store)
        | Instruction::ToBounded(store) => put_store(store, out, at),
        Instruction::AddTypes { store, pattern } | Instruction::DeleteTypes { store, pattern } => {
            put_types(store, pattern, out, at)
        }
        Instruction::StartRange { store, t1, t2 } => put_range(store, t1, t2, out, at),
        Instruction::DeleteUpTo { store, t } | Instruction::OpenFrom { store, t } => {
            put_time(store, t, out, at)
        }
        Instruction::Create {
            store,
            kind,
            size,
            channel,
        } => put_created(store, kind, size, channel, out, at),
        Instruction::Copy { from, to, t1, t2 } => put_copy(from, to, t1, t2, out, at),
        Instruction::Resize { store, size } => put_size(store, size, out, at),
        Instruction::Channel { store, channel } => put_channel(store, channel, out, at),
    }
}
