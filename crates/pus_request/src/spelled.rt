// Items of the data of a request, and the instructions that they spell.
ghost use Rattle.std.specs.Prelude.{◌≡◌, ◌+◌, ◌-◌, ◌≤◌, ◌<◌, MatchOption, None, Some, length, drop};
ghost use Rattle.pst_model.specs.Layouts.{is_wrong_in, width_of};
ghost use Rattle.pst_model.specs.Least.{first_below};
ghost use Rattle.pus_request.specs.Kinds.{row_of};

use crate::kinds::Kind;
use control_defs::{Instruction, StoreKind, pattern_at, wrong_in_pattern};
use octet_fields::{u16_at, u32_at, u48_at};

/// The octet of a bounded store; that of a circular one is 0.
const BOUNDED: u8 = 1;

/// The place of the first wrong octet of the item at `at`, where one is wrong.
pub(crate) fn wrong_in_item(kind: Kind, body: &[u8], at: usize) -> Option<usize>
    requires { at + width_of (row_of kind).fields ≤ length body.now }
    ensures { let first = first_below (is_wrong_in (row_of kind).fields (drop at body.now))
        (width_of (row_of kind).fields) in
        MatchOption result (first ≡ None) (λ place. (at ≤ place) × (first ≡ Some (place - at))) }
{
    match kind {
        Kind::ForwardAdd | Kind::ForwardDelete => wrong_in_pattern(body, at),
        Kind::AddTypes | Kind::DeleteTypes => wrong_in_pattern(body, at + 2),
        Kind::Create if body[at + 2] > BOUNDED => Some(at + 2),
        _ => None,
    }
}

fn start_range_at(body: &[u8], at: usize) -> Instruction
    requires { at + 14 ≤ length body.now }
    ensures { result ≡ (row_of Kind.StartRange).spelled (drop at body.now) }
{
    Instruction::StartRange {
        store: u16_at(body, at),
        t1: u48_at(body, at + 2),
        t2: u48_at(body, at + 8),
    }
}

fn create_at(body: &[u8], at: usize) -> Instruction
    requires { at + 8 ≤ length body.now }
    ensures { result ≡ (row_of Kind.Create).spelled (drop at body.now) }
{
    Instruction::Create {
        store: u16_at(body, at),
        kind: StoreKind::from_octet(body[at + 2]),
        size: u32_at(body, at + 3),
        channel: body[at + 7],
    }
}

fn copy_at(body: &[u8], at: usize) -> Instruction
    requires { at + 16 ≤ length body.now }
    ensures { result ≡ (row_of Kind.Copy).spelled (drop at body.now) }
{
    Instruction::Copy {
        from: u16_at(body, at),
        to: u16_at(body, at + 2),
        t1: u48_at(body, at + 4),
        t2: u48_at(body, at + 10),
    }
}

/// The instruction that the item at `at` spells in the data of a request of this kind, where none
/// of its octets is wrong.
pub(crate) fn item_at(kind: Kind, body: &[u8], at: usize) -> Instruction
    requires { at + width_of (row_of kind).fields ≤ length body.now }
    ensures { result ≡ (row_of kind).spelled (drop at body.now) }
{
    match kind {
        Kind::ForwardAdd => Instruction::ForwardAdd(pattern_at(body, at)),
        Kind::ForwardDelete => Instruction::ForwardDelete(pattern_at(body, at)),
        Kind::ForwardReport => Instruction::ForwardReport,
        Kind::Enable => Instruction::Enable(u16_at(body, at)),
        Kind::Disable => Instruction::Disable(u16_at(body, at)),
        Kind::AddTypes => Instruction::AddTypes {
            store: u16_at(body, at),
            pattern: pattern_at(body, at + 2),
        },
        Kind::DeleteTypes => Instruction::DeleteTypes {
            store: u16_at(body, at),
            pattern: pattern_at(body, at + 2),
        },
        Kind::ReportTypes => Instruction::ReportTypes(u16_at(body, at)),
        Kind::StartRange => start_range_at(body, at),
        Kind::DeleteUpTo => Instruction::DeleteUpTo {
            store: u16_at(body, at),
            t: u48_at(body, at + 2),
        },
        Kind::Summary => Instruction::Summary(u16_at(body, at)),
        Kind::OpenFrom => Instruction::OpenFrom {
            store: u16_at(body, at),
            t: u48_at(body, at + 2),
        },
        Kind::Resume => Instruction::Resume(u16_at(body, at)),
        Kind::Suspend => Instruction::Suspend(u16_at(body, at)),
        Kind::Abort => Instruction::Abort(u16_at(body, at)),
        Kind::Status => Instruction::Status,
        Kind::Create => create_at(body, at),
        Kind::Remove => Instruction::Remove(u16_at(body, at)),
        Kind::Configuration => Instruction::Configuration,
        Kind::Copy => copy_at(body, at),
        Kind::Resize => Instruction::Resize {
            store: u16_at(body, at),
            size: u32_at(body, at + 2),
        },
        Kind::ToCircular => Instruction::ToCircular(u16_at(body, at)),
        Kind::ToBounded => Instruction::ToBounded(u16_at(body, at)),
        Kind::Channel => Instruction::Channel {
            store: u16_at(body, at),
            channel: body[at + 2],
        },
    }
}
