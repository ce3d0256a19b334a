// What the commands of a session come to, in numbers.
ghost use Rattle.std.specs.Prelude.{◌≡◌, ◌≤◌, ◌^◌};

use report_lines::Sent;

/// How many commands were carried out, and how many lines of each kind were sent for them, with their
/// octets. The numbers are so wide that no text can make them pass their ends.
#[derive(Clone, Copy, Debug, Default, PartialEq, Eq)]
pub struct Tally {
    pub commands: u64,
    pub forwarded: u128,
    pub replies: u128,
    pub retrieved: u128,
    pub octets: u128,
}

impl Tally {
    ghost use Rattle.station.specs.Tallies.{IsSmall, and_sent};

    /// Counts a command, for which these lines were sent. At most 2^40 were counted before.
    pub fn add(&mut self, sent: Sent)
        requires { IsSmall (2 ^ 40) self.old }
        ensures { self.new ≡ and_sent self.old sent }
    {
        self.commands += 1;
        self.forwarded += u128::from(sent.forwarded);
        self.replies += u128::from(sent.replies);
        self.retrieved += u128::from(sent.retrieved);
        self.octets += u128::from(sent.octets);
    }
}
