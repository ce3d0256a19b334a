// A text in memory that comes in short pieces. It tells what is left, and one take can be planned
// to fail.
ghost use Rattle.std.specs.Prelude.{◌≡◌, ◌≤◌, ◌<◌, ◌+◌, ◌++◌, ◌↔◌, ℕ, [], length, min, take, IfOk, IsErr, IsTrue, OnErr, OnOk, Some};
ghost use Rattle.board.specs.Counts.{Rose};

use board::{Failed, MemSource, Source};

/// A text in memory, taken from its front, at most so many octets a take.
#[derive(Drop)]
pub struct ShortSource {
    text: MemSource,
    most: usize,
    ghost some: { 0 < most },
}

impl ShortSource {
    ghost use Rattle.trials.specs.ShortSource.{IsNewSource, SameButPlan, planned_take};

    /// A text of which nothing was taken, and no take is to fail. A take gives at least one octet.
    pub fn new(bytes: Vec<u8>, most: usize) -> ShortSource
        requires { 0 < most }
        ensures { IsNewSource bytes.items most result }
    {
        ShortSource {
            text: MemSource::new(bytes),
            most,
        }
    }

    /// From now on the take with that number fails, counted from 1 since the text was made, and no
    /// other.
    pub fn plan(&mut self, number: u64)
        ensures planned { planned_take self.new ≡ Some number }
        ensures same { SameButPlan self.old self.new }
    {
        self.text.plan(number);
    }
}

impl Source for ShortSource {
    ghost use Rattle.trials.specs.ShortSource.{CountsTake, faults_of, left_of, most_of, planned_take, short_means, takes_made, tells_left};

    ghost means = { short_means };

    fn take(&mut self, into: &mut [u8]) -> Result<usize, Failed>
        requires { 0 < length into.old }
        ensures count { IfOk result (λ count. count ≤ length into.old) }
        ensures moved { IfOk result (λ count. IsTrue (tells_left self.old)
            → left_of self.old ≡ take count into.new ++ left_of self.new) }
        ensures end { IfOk result (λ count. IsTrue (tells_left self.old)
            → (count ≡ 0) ↔ (left_of self.old ≡ [])) }
        ensures failed { OnErr result (IsTrue (tells_left self.old)
            → left_of self.new ≡ left_of self.old) }
        ensures same { tells_left self.new ≡ tells_left self.old }
        ensures faults { faults_of self.old ≤ faults_of self.new }
        ensures takes { (takes_made self.old ≤ takes_made self.new) × (takes_made self.new ≤ takes_made self.old + 1) }
        ensures counted { OnOk result (Rose (takes_made self.old) (takes_made self.new)) }
        ensures cause { OnErr result (Rose (faults_of self.old) (faults_of self.new)) }

        // It fails exactly where it is planned to, and takes as much as there is, up to its most.
        ensures made { CountsTake self.old self.new }
        ensures planned { IsErr result ↔ (planned_take self.old ≡ Some (takes_made self.new)) }
        ensures fault { OnErr result
            (faults_of self.new ≡ min (faults_of self.old + 1) 18446744073709551615) }
        ensures no_fault { OnOk result (faults_of self.new ≡ faults_of self.old) }
        ensures exact { IfOk result (λ count.
            count ≡ min (min (length into.old) (most_of self.old)) (length (left_of self.old))) }
    {
        let room = into.len().min(self.most);
        self.text.take(&mut into[..room])
    }
}
