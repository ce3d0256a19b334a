// What a call has sent.
ghost use Rattle.std.specs.Prelude.{◌≡◌};

/// The lines that one call has sent, by their kinds, and the octets of all of them.
#[derive(Clone, Copy, Debug, Default, PartialEq, Eq)]
pub struct Sent {
    /// Packets that were forwarded in real time.
    pub forwarded: u32,
    /// Reports.
    pub replies: u32,
    /// Packets that were retrieved.
    pub retrieved: u32,
    /// The octets of these lines, each with its line end.
    pub octets: u64,
}

impl Sent {
    ghost use Rattle.report_lines.specs.Counting.{IsSmall, and_then};

    /// The lines of all three.
    pub fn and(self, second: Sent, third: Sent) -> Sent
        requires first { IsSmall self }
        requires second { IsSmall second }
        requires third { IsSmall third }
        ensures { result ≡ and_then (and_then self second) third }
    {
        Sent {
            forwarded: self.forwarded + second.forwarded + third.forwarded,
            replies: self.replies + second.replies + third.replies,
            retrieved: self.retrieved + second.retrieved + third.retrieved,
            octets: self.octets + second.octets + third.octets,
        }
    }
}
