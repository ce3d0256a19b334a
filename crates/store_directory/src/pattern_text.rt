// Patterns in a text, five octets each, behind one octet with their number.
ghost use Rattle.std.specs.Prelude.{◌≡◌, ◌<◌, ◌≤◌, ◌+◌, ◌*◌, ◌∷◌, IfSome, MatchOption, None, Some, drop, is_some, length, slice_get, true};
ghost use Rattle.octet_fields.specs.Fields.{Writes};
ghost use Rattle.control_defs.specs.Lists.{IsPatternList, is_pattern_list};
ghost use Rattle.control_defs.specs.PatternOctets.{spelled_pattern};
ghost use Rattle.control_defs.specs.Patterns.{IsPattern};
ghost use Rattle.store_directory.specs.Checkpoints.{pattern_list_in, patterns_in, patterns_octets};
ghost use Rattle.store_directory.specs.Views.{patterns_read};

use control_defs::{Pattern, Patterns, put_pattern, spelled_pattern_at};
use octet_fields::put_u8;
use std::marker::Model;

/// The octets of a pattern.
const PATTERN: usize = 5;

/// Patterns that a text spells.
#[derive(Drop)]
pub(crate) struct PatternText<'a> {
    octets: &'a [u8],
    count: u8,
}

impl<'a> Model for PatternText<'a> {
    ghost use Rattle.std.specs.Prelude.{◌≡◌, List, Some};
    ghost use Rattle.control_defs.specs.declared.patterns.Pattern.{Pattern};
    ghost use Rattle.store_directory.specs.Checkpoints.{patterns_in};
    ghost use Rattle.store_directory.specs.Views.{patterns_read};

    ghost Value = { List Pattern };

    ghost view = { λ text. patterns_read text.count text.octets.now };

    ghost invariant = { λ text. patterns_in text.count text.octets.now
        ≡ Some (patterns_read text.count text.octets.now) };
}

impl<'a> PatternText<'a> {
    // So many patterns at the front of the octets, which spell them.
    fn new(octets: &'a [u8], count: u8) -> PatternText<'a>
        requires { is_some (patterns_in count octets.now) ≡ true }
        ensures { patterns_in count octets.now ≡ Some result }
    {
        PatternText { octets, count }
    }

    /// How many patterns there are.
    pub(crate) fn len(&self) -> usize
        ensures { result ≡ length self.now }
    {
        self.count as usize
    }

    /// The pattern at a place, counted from 0.
    pub(crate) fn get(&self, at: usize) -> Pattern
        requires { at < length self.now }
        ensures pattern { slice_get self.now at ≡ Some result }
        ensures lawful { IsPattern result }
    {
        spelled_pattern_at(self.octets, PATTERN * at).unwrap()
    }

    /// The patterns as a list in memory. None where they are no list of patterns.
    pub(crate) fn to_patterns(&self) -> Option<Patterns>
        ensures some { is_some result ≡ is_pattern_list self.now }
        ensures same { IfSome result (λ patterns. patterns ≡ self.now) }
        ensures lawful { IfSome result IsPatternList }
    {
        let mut patterns = Patterns::new();
        for number in 0..self.len() {
            if patterns.append(self.get(number)).is_err() {
                return None;
            }
        }
        Some(patterns)
    }
}

/// The patterns whose number stands at the front, and what is behind them. None where one of them
/// is not spelled.
pub(crate) fn patterns_from<'a>(text: &'a [u8]) -> Option<(PatternText<'a>, &'a [u8])>
    ensures { MatchOption result (pattern_list_in text.now ≡ None)
        (λ read. pattern_list_in text.now ≡ Some (read.0, read.1.now)) }
{
    let (count, octets) = text.split_first()?;
    let rest = behind_patterns(octets, *count)?;
    Some((PatternText::new(octets, *count), rest))
}

// What is behind so many patterns. None where one of them is not spelled.
fn behind_patterns<'a>(octets: &'a [u8], count: u8) -> Option<&'a [u8]>
    ensures spelled { is_some (patterns_in count octets.now) ≡ is_some result }
    ensures rest { IfSome result (λ rest. rest.now ≡ drop (5 * count) octets.now) }
{
    let mut rest = octets;
    for _number in 0..count {
        rest = behind_pattern(rest)?;
    }
    Some(rest)
}

// What is behind a pattern. None where it is not spelled.
#[tactic(auto, unfolding(control_defs::specs::PatternOctets::spelled_pattern))]
fn behind_pattern<'a>(octets: &'a [u8]) -> Option<&'a [u8]>
    ensures { MatchOption result (spelled_pattern octets.now ≡ None)
        (λ rest. (is_some (spelled_pattern octets.now) ≡ true) × (rest.now ≡ drop 5 octets.now)) }
{
    if octets.len() < PATTERN || spelled_pattern_at(octets, 0).is_none() {
        return None;
    }
    Some(&octets[PATTERN..])
}

/// Writes the number of patterns, at most 255, and these, and answers the place behind them. The
/// rest of `out` stays.
pub(crate) fn put_patterns(patterns: &[Pattern], out: &mut [u8], at: usize) -> usize
    requires few { length patterns.now ≤ 255 }
    requires room { at + 1 + 5 * length patterns.now ≤ length out.old }
    ensures place { result ≡ at + 1 + 5 * length patterns.now }
    ensures written { Writes out.old out.new at
        (length patterns.now ∷ patterns_octets patterns.now) }
{
    put_u8(out, at, patterns.len() as u8);
    let mut place = at + 1;
    for pattern in patterns {
        place = put_pattern(*pattern, out, place);
    }
    place
}
