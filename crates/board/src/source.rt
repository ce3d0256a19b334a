// Where the octets of a text come from.
ghost use Rattle.std.specs.Prelude.{◌≡◌, ◌≤◌, ◌<◌, ◌+◌, ◌++◌, ◌↔◌, [], length, take, IsTrue, IfOk, OnErr, OnOk};
ghost use Rattle.board.specs.Counts.{Rose};
ghost use Rattle.board.specs.Meaning.{SourceMeaning};

use crate::board::Failed;

/// A text that comes octet by octet.
pub trait Source {
    /// What it means: tells, left, faults and takes.
    ghost means: { SourceMeaning Self };

    /// Moves the first octets that are left into the front of `into`, at most its length of them, and
    /// answers how many. 0 is the end of the text. After `Failed` nothing was taken.
    fn take(&mut self, into: &mut [u8]) -> Result<usize, Failed>
        requires { 0 < length into.old }
        ensures count { IfOk result (λ count. count ≤ length into.old) }
        ensures moved { IfOk result (λ count. IsTrue (means.tells self.old) → means.left self.old ≡ take count into.new ++ means.left self.new) }
        ensures end { IfOk result (λ count. IsTrue (means.tells self.old) → (count ≡ 0) ↔ (means.left self.old ≡ [])) }
        ensures failed { OnErr result (IsTrue (means.tells self.old) → means.left self.new ≡ means.left self.old) }
        ensures same { means.tells self.new ≡ means.tells self.old }
        ensures faults { means.faults self.old ≤ means.faults self.new }
        ensures takes { (means.takes self.old ≤ means.takes self.new) × (means.takes self.new ≤ means.takes self.old + 1) }
        ensures counted { OnOk result (Rose (means.takes self.old) (means.takes self.new)) }
        ensures no_fault { OnOk result (means.faults self.new ≡ means.faults self.old) }
        ensures cause { OnErr result (Rose (means.faults self.old) (means.faults self.new)) };
}
