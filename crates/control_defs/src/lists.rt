// Lists of patterns, which say what is forwarded or stored.
ghost use Rattle.std.specs.Prelude.{◌≡◌, ◌<◌, ◌≤◌, ◌↔◌, ◌∷◌, ◌++◌, [], All, length, not, filter, insert, slice_get, Contains, Ok, Some, OnOk, OnErr, IsOk, IsErr, IfOk, IfErr, is_ok};
ghost use Rattle.std.specs.List.{list_all};
ghost use Rattle.control_defs.specs.Lists.{AreApart, IsPatternList, IsPlace, is_covered, is_pattern_list, is_standing, may_precede, placed, with_pattern, without_covered, without_pattern};
ghost use Rattle.control_defs.specs.Patterns.{IsPattern, any_covers};

use crate::keys::Key;
use crate::patterns::Pattern;
use arrayvec::ArrayVec;
use std::marker::Model;

/// A list of patterns has no room for one more.
#[derive(Clone, Copy, Debug, PartialEq, Eq)]
pub struct Limit;

/// A pattern is not in a list.
#[derive(Clone, Copy, Debug, PartialEq, Eq)]
pub struct Absent;

/// A pattern may not stand behind those of a list.
#[derive(Clone, Copy, Debug, PartialEq, Eq)]
pub struct Misplaced;

/// What is forwarded, or what a store stores (ECSS-E-ST-70-41C, 6.14 and 6.15): at most 64
/// patterns, rising in the order of patterns. None covers another.
#[derive(Drop)]
pub struct Patterns {
    items: ArrayVec<Pattern, 64>,
}

impl Model for Patterns {
    ghost use Rattle.std.specs.Prelude.{List};
    ghost use Rattle.control_defs.specs.declared.patterns.Pattern.{Pattern};
    ghost use Rattle.control_defs.specs.Lists.{IsPatternList};

    ghost Value = { List Pattern };

    ghost view = { λ patterns. patterns.items.items };

    ghost invariant = { λ patterns. IsPatternList patterns.items.items };
}

impl Patterns {
    /// The list of no pattern.
    pub fn new() -> Patterns
        ensures empty { result ≡ [] }
        ensures lawful { IsPatternList result }
    {
        Patterns {
            items: ArrayVec::new(),
        }
    }

    /// The patterns in order.
    pub fn list(&self) -> &[Pattern]
        ensures list { result.now ≡ self.now }
        ensures lawful { IsPatternList self.now }
    {
        self.items.as_slice()
    }

    /// Whether one of the patterns covers the key.
    pub fn covers(&self, key: &Key) -> bool
        ensures { result ≡ any_covers self.now key.now }
    {
        self.items.iter().any(|pattern| pattern.covers(key))
    }

    /// Adds a pattern, whose APID is at most 2,047, at its place in the order, and takes out those
    /// that it covers. Where one of the list covers it, the list stays as it is. `Limit` where 65
    /// patterns would stand.
    pub fn add(&mut self, pattern: Pattern) -> Result<(), Limit>
        requires { IsPattern pattern }
        ensures ok { OnOk result (self.new ≡ with_pattern pattern self.old) }
        ensures limit { IsErr result ↔ (64 < length (with_pattern pattern self.old)) }
        ensures err { OnErr result (self.new ≡ self.old) }
        ensures lawful { IsPatternList self.new }
    {
        if self.covers_pattern(&pattern) {
            return Ok(());
        }
        if self.count_beside(&pattern) == 64 {
            return Err(Limit);
        }
        self.remove_covered(&pattern);
        self.place(pattern);
        Ok(())
    }

    /// Takes out the pattern itself. `Absent` where it is not in the list, even if another covers
    /// it.
    pub fn remove(&mut self, pattern: Pattern) -> Result<(), Absent>
        ensures ok { OnOk result (self.new ≡ without_pattern pattern self.old) }
        ensures absent { IsErr result ↔ ¬ (Contains self.old pattern) }
        ensures standing { is_ok result ≡ is_standing pattern self.old }
        ensures err { OnErr result (self.new ≡ self.old) }
        ensures lawful { IsPatternList self.new }
    {
        match self.search(&pattern) {
            Ok(at) => {
                self.items.remove(at);
                Ok(())
            }
            Err(_) => Err(Absent),
        }
    }

    /// Puts a pattern, whose APID is at most 2,047, behind all others. `Misplaced` where the list
    /// would not be lawful with it: where one of the others is not before it, where it and one of
    /// them cover one another, or where 65 patterns would stand.
    pub fn append(&mut self, pattern: Pattern) -> Result<(), Misplaced>
        requires { IsPattern pattern }
        ensures ok { OnOk result (self.new ≡ self.old ++ pattern ∷ []) }
        ensures lawful_with { is_ok result ≡ is_pattern_list (self.old ++ pattern ∷ []) }
        ensures err { OnErr result (self.new ≡ self.old) }
        ensures lawful { IsPatternList self.new }
    {
        if self.items.is_full() || !self.precedes(&pattern) {
            return Err(Misplaced);
        }
        self.items.push(pattern);
        Ok(())
    }

    // Whether each of the patterns may stand in front of this one.
    fn precedes(&self, pattern: &Pattern) -> bool
        ensures each { result ≡ list_all (λ other. may_precede other pattern.now) self.now }
        ensures lawful { IsPatternList self.now }
    {
        self.items.iter().all(|other| other.may_precede(pattern))
    }

    // Whether one of the patterns covers this one.
    fn covers_pattern(&self, pattern: &Pattern) -> bool
        ensures some { result ≡ is_covered pattern.now self.now }
        ensures lawful { IsPatternList self.now }
    {
        self.items.iter().any(|other| other.covers_pattern(pattern))
    }

    // How many of the patterns this one does not cover.
    fn count_beside(&self, pattern: &Pattern) -> usize
        ensures { result ≡ length (without_covered pattern.now self.now) }
    {
        self.items
            .iter()
            .filter(|other| !pattern.covers_pattern(other))
            .count()
    }

    // Takes out the patterns that this one covers.
    fn remove_covered(&mut self, pattern: &Pattern)
        ensures { self.new ≡ without_covered pattern.now self.old }
    {
        self.items.retain(|other| !pattern.covers_pattern(other));
    }

    // The place of the pattern, or the place where it would stand.
    fn search(&self, pattern: &Pattern) -> Result<usize, usize>
        ensures stands { IsOk result ↔ Contains self.now pattern.now }
        ensures found { IfOk result (λ i. slice_get self.now i ≡ Some pattern.now) }
        ensures within { IfOk result (λ i. i < length self.now) }
        ensures place { IfErr result (IsPlace self.now pattern.now) }
        ensures lawful { IsPatternList self.now }
    {
        self.items.binary_search(pattern)
    }

    // Puts the pattern at its place.
    fn place(&mut self, pattern: Pattern)
        requires range { IsPattern pattern }
        requires room { length self.old < 64 }
        requires apart { All (AreApart pattern) self.old }
        ensures placed { self.new ≡ placed pattern self.old }
        ensures lawful { IsPatternList self.new }
    {
        if let Err(at) = self.search(&pattern) {
            self.items.insert(at, pattern);
        }
    }
}
