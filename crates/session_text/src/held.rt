// The octets that were taken from a source and not yet read.
//
// They stand together in a buffer, from `start` up to `end`. What is behind them is filled, and where
// there is no room behind them they move to the front. At most about half of the buffer is in use when
// it is filled, so what moves is no more than what was taken since the last move.
ghost use Rattle.std.specs.Prelude.{◌≡◌, ◌≤◌, ◌+◌, ◌++◌, [], length, drop, IsTrue, IfOk, IfErr, OnErr, OnOk};
ghost use Rattle.board.specs.Counts.{Rose};
ghost use Rattle.session_text.specs.Gain.{Gains};

use board::{Failed, Source};
use std::alloc::{AllocError, Global};
use std::marker::Model;

/// The octets of the buffer.
const ROOM: usize = 262_144;

/// The octets that were taken and not yet read, seen as their list.
#[derive(Drop)]
pub struct Held {
    octets: Vec<u8>,
    start: usize,
    end: usize,
}

impl Model for Held {
    ghost use Rattle.std.specs.Prelude.{◌≡◌, ◌≤◌, ℕ, List, length, slice_range};

    ghost Value = { List ℕ };

    ghost view = { λ held. slice_range held.octets.items held.start held.end };

    ghost invariant = { λ held. (held.start ≤ held.end) × (held.end ≤ 262144) × (length held.octets.items ≡ 262144) };
}

impl Held {
    /// Nothing is held.
    pub fn new(alloc: Global) -> Result<Held, AllocError>
        ensures { IfOk result (λ held. held ≡ []) }
    {
        Ok(Held {
            octets: vec![in alloc; 0; ROOM]?,
            start: 0,
            end: 0,
        })
    }

    /// The octets that are held.
    pub fn octets(&self) -> &[u8]
        ensures octets { result.now ≡ self.now }
        ensures most { length result.now ≤ 262144 }
    {
        &self.octets[self.start..self.end]
    }

    /// Drops the first octets, of which there are at least `count`.
    pub fn skip(&mut self, count: usize)
        requires { count ≤ length self.old }
        ensures { self.new ≡ drop count self.old }
    {
        self.start += count;
    }

    /// Takes more octets, where at most 131,201 are held, and answers how many. 0 is the end of the
    /// text.
    pub fn fill<S: Source>(&mut self, source: &mut S) -> Result<usize, Failed>
        requires { length self.old ≤ 131201 }
        ensures gains { IfOk result (λ count. Gains self.old self.new count (S.means.tells source.old) (S.means.left source.old) (S.means.left source.new)) }
        ensures failed { OnErr result (self.new ≡ self.old) }
        ensures kept { OnErr result (IsTrue (S.means.tells source.old) → S.means.left source.new ≡ S.means.left source.old) }
        ensures same { S.means.tells source.new ≡ S.means.tells source.old }
        ensures faults { S.means.faults source.old ≤ S.means.faults source.new }
        ensures takes { (S.means.takes source.old ≤ S.means.takes source.new)
            × (S.means.takes source.new ≤ S.means.takes source.old + 1) }
        ensures no_fault { OnOk result (S.means.faults source.new ≡ S.means.faults source.old) }
        ensures cause { OnErr result (Rose (S.means.faults source.old) (S.means.faults source.new)) }
    {
        if self.end == ROOM {
            self.octets.copy_within(self.start..self.end, 0);
            self.end -= self.start;
            self.start = 0;
        }
        let count = source.take(&mut self.octets[self.end..])?;
        self.end += count;
        Ok(count)
    }
}
