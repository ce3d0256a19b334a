// Laws on patterns and their lists.
ghost use Rattle.std.specs.Prelude.{◌≡◌, ◌↔◌, ◌≤◌, ◌||◌, ◌++◌, ℕ, All, true, List, Some, length};
ghost use Rattle.std.specs.Cmp.{IsTotalOrder};
ghost use Rattle.control_defs.specs.declared.keys.Key.{Key};
ghost use Rattle.control_defs.specs.declared.patterns.Pattern.{Pattern};
ghost use Rattle.control_defs.specs.Lists.{IsPatternList, is_pattern_list, pattern_cmp, with_pattern, without_pattern};
ghost use Rattle.control_defs.specs.PatternOctets.{pattern_octets, spelled_pattern};
ghost use Rattle.control_defs.specs.Patterns.{HasPatternOctets, IsKey, IsPattern, any_covers, covers, pattern_covers};

use std::cmp::Ordering;

/// A pattern covers another, whose numbers are in their ranges, exactly where it covers each key
/// that the other covers.
pub fn covering_is_inclusion()
    ensures { (p q : Pattern) → IsPattern q → HasPatternOctets q
        → (pattern_covers p q ≡ true)
        ↔ ((key : Key) → IsKey key → covers q key ≡ true → covers p key ≡ true) }
{}

/// The order of patterns is total, and patterns that it does not tell apart are the same.
pub fn order_is_total()
    ensures total { IsTotalOrder pattern_cmp }
    ensures same { (p q : Pattern) → pattern_cmp p q ≡ Ordering.Equal → p ≡ q }
{}

/// A list with a pattern more, or without one, is a list of patterns, as long as it has at most 64;
/// and a list with a pattern covers the keys that the list or the pattern covers.
pub fn lists_stay_lawful()
    ensures with_one { (p : Pattern) (xs : List Pattern) → IsPatternList xs → IsPattern p
        → length (with_pattern p xs) ≤ 64 → IsPatternList (with_pattern p xs) }
    ensures without { (p : Pattern) (xs : List Pattern) → IsPatternList xs
        → IsPatternList (without_pattern p xs) }
    ensures covering { (p : Pattern) (xs : List Pattern) (key : Key)
        → any_covers (with_pattern p xs) key ≡ (any_covers xs key || covers p key) }
{}

/// The test of a list whose patterns have APIDs of eleven bits tells if and only if it is a list of
/// patterns.
pub fn lawful_lists_are_tested()
    ensures { (patterns : List Pattern) → All IsPattern patterns
        → (is_pattern_list patterns ≡ true) ↔ IsPatternList patterns }
{}

/// A pattern that was written is read back from its octets, whatever stands behind them.
pub fn written_patterns_are_read()
    ensures { (pattern : Pattern) (rest : List ℕ) → IsPattern pattern
        → spelled_pattern (pattern_octets pattern ++ rest) ≡ Some pattern }
{}
