// A text in memory. It tells what is left, and one take can be planned to fail.
ghost use Rattle.std.specs.Prelude.{◌≡◌, ◌≤◌, ◌<◌, ◌+◌, ◌++◌, ◌↔◌, ℕ, [], drop, length, min, take, IfOk, IsErr, IsTrue, MatchResult, OnErr, OnOk, Some};
ghost use Rattle.board.specs.Counts.{Rose};

use crate::board::Failed;
use crate::source::Source;

/// A text in memory, taken from its front.
#[derive(Drop)]
pub struct MemSource {
    bytes: Vec<u8>,
    at: usize,
    made: u64,
    faults: u64,
    planned: Option<u64>,
    ghost within: { at ≤ length bytes.items },
}

impl MemSource {
    ghost use Rattle.board.specs.MemorySource.{IsNewSource, SameButPlan, planned_take};

    /// A text of which nothing was taken, and no take is to fail.
    pub fn new(bytes: Vec<u8>) -> MemSource
        ensures { IsNewSource bytes.items result }
    {
        MemSource {
            bytes,
            at: 0,
            made: 0,
            faults: 0,
            planned: None,
        }
    }

    /// From now on the take with that number fails, counted from 1 since the text was made, and no
    /// other.
    pub fn plan(&mut self, number: u64)
        ensures planned { planned_take self.new ≡ Some number }
        ensures same { SameButPlan self.old self.new }
    {
        self.planned = Some(number);
    }
}

impl Source for MemSource {
    ghost use Rattle.board.specs.MemorySource.{CountsTake, faults_of, left_of, planned_take, takes_made, tells_left, text_means};

    ghost means = { text_means };

    fn take(&mut self, into: &mut [u8]) -> Result<usize, Failed>
        requires { 0 < length into.old }
        ensures count { IfOk result (λ count. count ≤ length into.old) }
        ensures moved { IfOk result (λ count. IsTrue (tells_left self.old)
            → left_of self.old ≡ take count into.new ++ left_of self.new) }
        ensures end { IfOk result (λ count. IsTrue (tells_left self.old)
            → (count ≡ 0) ↔ (left_of self.old ≡ [])) }
        ensures failed { OnErr result (IsTrue (tells_left self.old)
            → left_of self.new ≡ left_of self.old) }
        ensures same { tells_left self.new ≡ tells_left self.old }
        ensures faults { faults_of self.old ≤ faults_of self.new }
        ensures takes { (takes_made self.old ≤ takes_made self.new) × (takes_made self.new ≤ takes_made self.old + 1) }
        ensures counted { OnOk result (Rose (takes_made self.old) (takes_made self.new)) }
        ensures no_fault { OnOk result (faults_of self.new ≡ faults_of self.old) }
        ensures cause { OnErr result (Rose (faults_of self.old) (faults_of self.new)) }

        // It fails exactly where it is planned to, and takes all that there is room for. What it
        // does not fill of `into` stays.
        ensures made { CountsTake self.old self.new }
        ensures planned { IsErr result ↔ (planned_take self.old ≡ Some (takes_made self.new)) }
        ensures fault { OnErr result
            (faults_of self.new ≡ min (faults_of self.old + 1) 18446744073709551615) }
        ensures unfilled { MatchResult result
            (λ count. drop count into.new ≡ drop count into.old)
            (λ failed. into.new ≡ into.old) }
        ensures exact { IfOk result (λ count.
            count ≡ min (length into.old) (length (left_of self.old))) }
    {
        self.made = self.made.saturating_add(1);
        if self.planned == Some(self.made) {
            self.faults = self.faults.saturating_add(1);
            return Err(Failed);
        }
        let count = into.len().min(self.bytes.len() - self.at);
        into[..count].copy_from_slice(&self.bytes[self.at..self.at + count]);
        self.at += count;
        Ok(count)
    }
}
