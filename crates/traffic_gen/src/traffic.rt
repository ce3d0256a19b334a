// The traffic as a source.
ghost use Rattle.std.specs.Prelude.{◌≡◌, ◌≤◌, ◌<◌, ◌+◌, ◌-◌, ◌*◌, ◌++◌, ◌↔◌, [], length, min, take, IfOk, IsOk, IsTrue, OnErr, OnOk};
ghost use Rattle.board.specs.Counts.{Rose};

use crate::passes::{next_state, put_next};
use board::{Failed, Source};

/// The octets of the lines that are made at once, at most.
const ROOM: usize = 5400;

/// The text of generated traffic, made as it is taken. It tells what is left, and never fails.
#[derive(Drop)]
pub struct Traffic {
    total: u32,
    state: u64,
    // how often lines were made: first for the requests, then for each arrival, and then for each of the last grants
    made: u32,
    lines: [u8; ROOM],
    from: usize,
    to: usize,
    takes: u64,
    ghost some: { 1 ≤ total },
    ghost few: { total ≤ 100000 },
    ghost within: { made ≤ 2 * total + 1 },
    ghost order: { from ≤ to },
    ghost room: { to ≤ 5400 },
    ghost size: { length lines ≡ 5400 },
}

impl Traffic {
    ghost use Rattle.traffic_gen.specs.Lines.{text_of};
    ghost use Rattle.traffic_gen.specs.Meaning.{IsNewTraffic, left_of};
    ghost use Rattle.traffic_gen.specs.Steps.{behind};

    /// The traffic of a number, with so many arrivals, 1 to 100,000.
    pub fn new(number: u64, total: u32) -> Traffic
        requires some { 1 ≤ total }
        requires few { total ≤ 100000 }
        ensures { IsNewTraffic number total result }
    {
        Traffic {
            total,
            state: number,
            made: 0,
            lines: [0; ROOM],
            from: 0,
            to: 0,
            takes: 0,
        }
    }

    // Makes the lines that come next, or none at the end.
    fn make_lines(&mut self)
        ensures left { left_of self.new ≡ text_of (behind self.old.total self.old.state self.old.made) }
        ensures some { self.new.to ≡ self.new.from → left_of self.new ≡ [] }
        ensures takes { self.new.takes ≡ self.old.takes }
    {
        self.from = 0;
        self.to = put_next(self.total, self.made, self.state, &mut self.lines);
        self.state = next_state(self.total, self.made, self.state);
        self.made = (self.made + 1).min(2 * self.total + 1);
    }

    // Has some of the lines at hand, where any are left.
    fn refill(&mut self)
        ensures left { left_of self.new ≡ left_of self.old }
        ensures some { self.new.to ≡ self.new.from → left_of self.new ≡ [] }
        ensures takes { self.new.takes ≡ self.old.takes }
    {
        if self.from == self.to {
            self.make_lines();
        }
    }

    // Moves the first octets at hand into the front of `into`, and answers how many.
    fn hand_out(&mut self, into: &mut [u8]) -> usize
        ensures count { result ≡ min (length into.old) (self.old.to - self.old.from) }
        ensures moved { left_of self.old ≡ take result into.new ++ left_of self.new }
        ensures takes { self.new.takes ≡ self.old.takes }
    {
        let count = into.len().min(self.to - self.from);
        into[..count].copy_from_slice(&self.lines[self.from..self.from + count]);
        self.from += count;
        count
    }
}

impl Source for Traffic {
    ghost use Rattle.traffic_gen.specs.Meaning.{faults_of, left_of, takes_made, tells_left, traffic_means};

    ghost means = { traffic_means };

    fn take(&mut self, into: &mut [u8]) -> Result<usize, Failed>
        requires { 0 < length into.old }
        ensures count { IfOk result (λ count. count ≤ length into.old) }
        ensures moved { IfOk result (λ count. IsTrue (tells_left self.old)
            → left_of self.old ≡ take count into.new ++ left_of self.new) }
        ensures end { IfOk result (λ count. IsTrue (tells_left self.old)
            → (count ≡ 0) ↔ (left_of self.old ≡ [])) }
        ensures failed { OnErr result (IsTrue (tells_left self.old)
            → left_of self.new ≡ left_of self.old) }
        ensures same { tells_left self.new ≡ tells_left self.old }
        ensures faults { faults_of self.old ≤ faults_of self.new }
        ensures takes { (takes_made self.old ≤ takes_made self.new) × (takes_made self.new ≤ takes_made self.old + 1) }
        ensures counted { OnOk result (Rose (takes_made self.old) (takes_made self.new)) }
        ensures no_fault { OnOk result (faults_of self.new ≡ faults_of self.old) }
        ensures cause { OnErr result (Rose (faults_of self.old) (faults_of self.new)) }

        // It never fails.
        ensures always { IsOk result }
    {
        self.takes = self.takes.saturating_add(1);
        self.refill();
        let count = self.hand_out(into);
        Ok(count)
    }
}
