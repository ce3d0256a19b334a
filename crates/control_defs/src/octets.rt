// Patterns as five octets: one with the form, two with the APID, one with the service type and one
// with the message subtype.
ghost use Rattle.std.specs.Prelude.{◌≡◌, ◌+◌, ◌-◌, ◌≤◌, ◌++◌, ◌∷◌, [], IfSome, MatchOption, None, Some, length, drop};
ghost use Rattle.octet_fields.specs.Fields.{Writes, big_bytes};
ghost use Rattle.control_defs.specs.PatternOctets.{first_wrong_in_pattern, pattern_in, pattern_octets, spelled_pattern};
ghost use Rattle.control_defs.specs.Patterns.{IsPattern};

use crate::patterns::Pattern;
use octet_fields::{put_u8, put_u16, u16_at};

// The forms of a pattern.
const EVERY: u8 = 0;

const APP: u8 = 1;

const SERVICE: u8 = 2;

const KIND: u8 = 3;

/// The highest APID.
const HIGHEST: u16 = 2047;

/// The place of the first wrong octet of the five at `at`, where one is wrong: a form above 3, the
/// first octet of an APID above 2,047, or an octet other than 0 that the form does not use.
pub fn wrong_in_pattern(octets: &[u8], at: usize) -> Option<usize>
    requires { at + 5 ≤ length octets.now }
    ensures { let first = first_wrong_in_pattern (drop at octets.now) in
        MatchOption result (first ≡ None) (λ place. (at ≤ place) × (first ≡ Some (place - at))) }
{
    let form = octets[at];
    if form > KIND {
        Some(at)
    } else if u16_at(octets, at + 1) > HIGHEST || form == EVERY && octets[at + 1] != 0 {
        Some(at + 1)
    } else if form == EVERY && octets[at + 2] != 0 {
        Some(at + 2)
    } else if form < SERVICE && octets[at + 3] != 0 {
        Some(at + 3)
    } else if form < KIND && octets[at + 4] != 0 {
        Some(at + 4)
    } else {
        None
    }
}

/// The pattern that the five octets at `at` spell, where none of them is wrong.
pub fn pattern_at(octets: &[u8], at: usize) -> Pattern
    requires { at + 5 ≤ length octets.now }
    ensures { result ≡ pattern_in (drop at octets.now) }
{
    let apid = u16_at(octets, at + 1);
    let service = octets[at + 3];
    let subtype = octets[at + 4];
    match octets[at] {
        EVERY => Pattern::Every,
        APP => Pattern::App(apid),
        SERVICE => Pattern::Service(apid, service),
        _ => Pattern::Kind(apid, service, subtype),
    }
}

/// The pattern that the five octets at `at` spell. None where one of them is wrong.
pub fn spelled_pattern_at(octets: &[u8], at: usize) -> Option<Pattern>
    requires { at + 5 ≤ length octets.now }
    ensures value { result ≡ spelled_pattern (drop at octets.now) }
    ensures lawful { IfSome result IsPattern }
{
    if wrong_in_pattern(octets, at).is_some() {
        return None;
    }
    Some(pattern_at(octets, at))
}

// Writes the form and the fields of a pattern.
fn put_fields(form: u8, apid: u16, service: u8, subtype: u8, out: &mut [u8], at: usize)
    requires { at + 5 ≤ length out.old }
    ensures { Writes out.old out.new at (form ∷ big_bytes 2 apid ++ service ∷ subtype ∷ []) }
{
    put_u8(out, at, form);
    put_u16(out, at + 1, apid);
    put_u8(out, at + 3, service);
    put_u8(out, at + 4, subtype);
}

/// Writes a pattern in five octets at `at`, and answers the place behind it. What its form does not
/// have is 0. The rest of `out` stays.
pub fn put_pattern(pattern: Pattern, out: &mut [u8], at: usize) -> usize
    requires { at + 5 ≤ length out.old }
    ensures place { result ≡ at + 5 }
    ensures written { Writes out.old out.new at (pattern_octets pattern) }
{
    match pattern {
        Pattern::Every => put_fields(EVERY, 0, 0, 0, out, at),
        Pattern::App(apid) => put_fields(APP, apid, 0, 0, out, at),
        Pattern::Service(apid, service) => put_fields(SERVICE, apid, service, 0, out, at),
        Pattern::Kind(apid, service, subtype) => put_fields(KIND, apid, service, subtype, out, at),
    }
    at + 5
}
