// The counts of a board: faults, and calls.
ghost use Rattle.std.specs.Prelude.{◌≡◌, ◌≤◌, ◌+◌, false, is_ok, OnErr, OnOk};
ghost use Rattle.board.specs.Counts.{Rose};
ghost use Rattle.board.specs.Kinds.{one_more};

use board::Failed;
use std::io;

/// How often flash and link have failed, and how often each call was made. A count is saturated at
/// `u64::MAX`.
#[derive(Clone, Copy)]
pub struct Tally {
    pub flash_faults: u64,
    pub link_faults: u64,
    pub reads: u64,
    pub programs: u64,
    pub erases: u64,
    pub barriers: u64,
    pub sends: u64,
}

impl Tally {
    ghost use Rattle.image_board.specs.Counting.{no_counts, counts_in};

    /// No faults and no calls.
    pub fn new() -> Tally
        ensures { counts_in result ≡ no_counts }
    {
        Tally {
            flash_faults: 0,
            link_faults: 0,
            reads: 0,
            programs: 0,
            erases: 0,
            barriers: 0,
            sends: 0,
        }
    }
}

/// Raises a count by one.
pub fn raise(count: &mut u64)
    ensures exact { count.new ≡ one_more count.old }
    ensures least { count.old ≤ count.new }
    ensures most { count.new ≤ count.old + 1 }
    ensures rose { Rose count.old count.new }
{
    *count = count.saturating_add(1);
}

/// Counts a fault.
pub fn fail(faults: &mut u64) -> Result<(), Failed>
    ensures failed { is_ok result ≡ false }
    ensures exact { faults.new ≡ one_more faults.old }
    ensures least { faults.old ≤ faults.new }
    ensures rose { Rose faults.old faults.new }
{
    raise(faults);
    Err(Failed)
}

/// An error of the system is a fault, and counted.
pub fn judge(outcome: io::Result<()>, faults: &mut u64) -> Result<(), Failed>
    ensures same { is_ok result ≡ is_ok outcome }
    ensures ok { OnOk result (faults.new ≡ faults.old) }
    ensures err { OnErr result (faults.new ≡ one_more faults.old) }
    ensures least { faults.old ≤ faults.new }
    ensures rose { OnErr result (Rose faults.old faults.new) }
{
    match outcome {
        Ok(()) => Ok(()),
        Err(_) => fail(faults),
    }
}
