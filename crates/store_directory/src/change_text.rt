// Changes in the text of an entry, one behind another: a tag (1) and the fields of its change.
//
//   1 Clock    now (6), reports (2)
//   2 Put      a row (29)
//   3 Gone     store (2)
//   4 Forward  add (1: 0 or 1), pattern (5)
//   5 Types    store (2), add (1: 0 or 1), pattern (5)
//   6 Links    store (2), number of links (2), links (6 each)
//   7 Swap     store (2), link (6)
ghost use Rattle.std.specs.Prelude.{◌≡◌, ◌+◌, ◌*◌, ◌≤◌, ◌<◌, IfSome, MatchOption, None, Some, length, slice_index};
ghost use Rattle.octet_fields.specs.Fields.{field};
ghost use Rattle.store_directory.specs.Entries.{FitsChange, add_in, change_by, change_in, width_by, width_in};
ghost use Rattle.store_directory.specs.Spelled.{meaning_of};

use crate::change::Change;
use crate::link_text::LinkText;
use crate::row_text::row_at;
use control_defs::spelled_pattern_at;
use octet_fields::{u16_at, u32_at, u48_at};

pub(crate) const CLOCK: u8 = 1;

pub(crate) const PUT: u8 = 2;

pub(crate) const GONE: u8 = 3;

pub(crate) const FORWARD: u8 = 4;

pub(crate) const TYPES: u8 = 5;

pub(crate) const LINKS: u8 = 6;

pub(crate) const SWAP: u8 = 7;

/// A change that a text spells, with the links where they lie in the text.
#[derive(Drop)]
pub(crate) enum Spelled<'a> {
    /// Blocks are added behind those of a store.
    Links { store: u16, links: LinkText<'a> },
    /// Another change.
    Other(Change<'a>),
}

/// The change that begins a text.
#[derive(Drop)]
pub(crate) struct Reading<'a> {
    pub(crate) change: Spelled<'a>,
    /// How many octets it has.
    pub(crate) width: usize,
}

/// The change that begins a text. None where no whole change begins it.
#[tactic(auto, unfolding(crate::specs::Entries::change_in))]
pub(crate) fn read_change<'a>(text: &'a [u8]) -> Option<Reading<'a>>
    ensures change { MatchOption result (change_in text.now ≡ None)
        (λ reading. change_in text.now ≡ Some (meaning_of reading.change)) }
    ensures fits { IfSome result (λ reading. FitsChange (meaning_of reading.change)) }
    ensures width { IfSome result (λ reading. reading.width ≡ width_in text.now) }
    ensures some { IfSome result (λ reading. 1 ≤ reading.width) }
    ensures within { IfSome result (λ reading. reading.width ≤ length text.now) }
{
    let width = width_of(text)?;
    let change = change_by(text[0], &text[..width])?;
    Some(Reading { change, width })
}

// How many octets the change has that begins the text. None where the text ends before, or begins
// with no tag.
#[tactic(auto, unfolding(crate::specs::Entries::width_in))]
fn width_of(text: &[u8]) -> Option<usize>
    ensures whole { MatchOption result (1 ≤ width_in text.now → length text.now < width_in text.now)
        (λ width. width ≡ width_in text.now) }
    ensures some { IfSome result (λ width. 1 ≤ width) }
    ensures within { IfSome result (λ width. width ≤ length text.now) }
{
    let width = match *text.first()? {
        CLOCK | TYPES | SWAP => 9,
        PUT => 30,
        GONE => 3,
        FORWARD => 7,
        LINKS => 5 + 6 * count_of(text)?,
        _ => return None,
    };
    if text.len() < width {
        return None;
    }
    Some(width)
}

// How many links a change of links says that it has.
fn count_of(text: &[u8]) -> Option<usize>
    ensures none { MatchOption result (length text.now < 5) (λ count. count ≡ field 2 3 text.now) }
    ensures few { IfSome result (λ count. count < 65536) }
{
    if text.len() < 5 {
        return None;
    }
    Some(u16_at(text, 3) as usize)
}

// The change of a tag that these octets are.
fn change_by<'a>(tag: u8, octets: &'a [u8]) -> Option<Spelled<'a>>
    requires { length octets.now ≡ width_by tag octets.now }
    ensures change { MatchOption result (change_by tag octets.now ≡ None)
        (λ change. change_by tag octets.now ≡ Some (meaning_of change)) }
    ensures fits { IfSome result (λ change. FitsChange (meaning_of change)) }
{
    match tag {
        CLOCK => Some(Spelled::Other(Change::Clock {
            now: u48_at(octets, 1),
            reports: u16_at(octets, 7),
        })),
        PUT => Some(Spelled::Other(Change::Put(row_at(&octets[1..])?))),
        GONE => Some(Spelled::Other(Change::Gone(u16_at(octets, 1)))),
        FORWARD => forward_at(octets),
        TYPES => types_at(octets),
        LINKS => Some(links_at(octets)),
        SWAP => Some(Spelled::Other(Change::Swap {
            store: u16_at(octets, 1),
            block: u16_at(octets, 3),
            first: u32_at(octets, 5),
        })),
        _ => None,
    }
}

fn forward_at<'a>(octets: &[u8]) -> Option<Spelled<'a>>
    requires { 7 ≤ length octets.now }
    ensures change { MatchOption result (change_by 4 octets.now ≡ None)
        (λ change. change_by 4 octets.now ≡ Some (meaning_of change)) }
    ensures fits { IfSome result (λ change. FitsChange (meaning_of change)) }
{
    let add = added(octets[1])?;
    let pattern = spelled_pattern_at(octets, 2)?;
    Some(Spelled::Other(Change::Forward { add, pattern }))
}

fn types_at<'a>(octets: &[u8]) -> Option<Spelled<'a>>
    requires { 9 ≤ length octets.now }
    ensures change { MatchOption result (change_by 5 octets.now ≡ None)
        (λ change. change_by 5 octets.now ≡ Some (meaning_of change)) }
    ensures fits { IfSome result (λ change. FitsChange (meaning_of change)) }
{
    let store = u16_at(octets, 1);
    let add = added(octets[3])?;
    let pattern = spelled_pattern_at(octets, 4)?;
    Some(Spelled::Other(Change::Types {
        store,
        add,
        pattern,
    }))
}

fn links_at<'a>(octets: &'a [u8]) -> Spelled<'a>
    requires { length octets.now ≡ width_by 6 octets.now }
    ensures change { change_by 6 octets.now ≡ Some (meaning_of result) }
    ensures fits { FitsChange (meaning_of result) }
{
    Spelled::Links {
        store: u16_at(octets, 1),
        links: LinkText::new(&octets[5..], u16_at(octets, 3)),
    }
}

// Whether a pattern is added, by the octet that says so.
fn added(octet: u8) -> Option<bool>
    ensures { result ≡ add_in octet }
{
    match octet {
        0 => Some(false),
        1 => Some(true),
        _ => None,
    }
}
