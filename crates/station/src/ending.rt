// How a session ends.
ghost use Rattle.std.specs.Prelude.{◌≡◌};

use session_text::LineFault;

/// How a session ended.
#[derive(Clone, Copy, Debug, PartialEq, Eq)]
pub enum Ending {
    /// All was done: the text was read to its end, and all output was sent.
    Done,
    /// The words are not known. Nothing was done.
    BadWords,
    /// The line with this number, counted from 1, is bad. All commands before it were carried out.
    BadLine {
        line: u64,
        why: LineFault,
    },
    /// The flash holds no table. Nothing was written or sent.
    NotHeld,
    /// The flash failed. If that was during a format, it may hold no table.
    FlashFault,
    /// The link failed.
    LinkFault,
    /// The source of the text failed. All commands before were carried out.
    SourceFault,
    /// What was kept of a record is not what is found at its place.
    Mismatch {
        block: u32,
        page: u32,
        kept: u32,
        found: u32,
    },
    /// There was no memory for the session. Nothing was read of the text, and nothing was sent.
    NoMemory,
}

impl Ending {
    ghost use Rattle.station.specs.Endings.{status_of};

    /// The status of the process: 0 if all was done.
    pub fn status(&self) -> u8
        ensures { result ≡ status_of self.now }
    {
        match self {
            Ending::Done => 0,
            Ending::BadWords => 1,
            Ending::BadLine { .. } => 2,
            Ending::NotHeld => 3,
            Ending::FlashFault => 4,
            Ending::LinkFault => 5,
            Ending::SourceFault => 6,
            Ending::Mismatch { .. } => 7,
            Ending::NoMemory => 8,
        }
    }
}
