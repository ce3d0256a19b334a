// How the program ends, and what it says of it on standard error.
ghost use Rattle.std.specs.Prelude.{◌≡◌, ◌↔◌, IsTrue};
ghost use Rattle.std.specs.Process.{exit_status};

use station::Ending;
use std::fmt;
use std::process::ExitCode;

/// Why the program did not do all that it was asked.
#[derive(Drop)]
pub enum Report {
    /// The first two words name no device.
    Device,
    /// The file at this path can be no device: it cannot be opened, made, locked or synced, or its length
    /// is none of a device.
    File(String),
    /// The session ended so.
    Session(Ending),
}

impl Report {
    ghost use Rattle.pusstore.specs.Reports.{status_in};

    /// Whether all was done, so that there is nothing to say.
    pub fn is_done(&self) -> bool
        ensures done { IsTrue result ↔ (self.now ≡ Report.Session Ending.Done) }
        ensures zero { IsTrue result ↔ (status_in self.now ≡ 0) }
    {
        matches!(self, Report::Session(Ending::Done))
    }

    /// The status of the process.
    pub fn status(&self) -> ExitCode
        ensures { exit_status result ≡ status_in self.now }
    {
        match self {
            Report::Device => ExitCode::from(1),
            Report::File(_) => ExitCode::from(9),
            Report::Session(ending) => ExitCode::from(ending.status()),
        }
    }
}

impl fmt::Display for Report {
    fn fmt<W: fmt::Write>(&self, f: &mut fmt::Formatter<W>) -> fmt::Result {
        match self {
            Report::Device => f.write_str("pusstore: device: use mem N or file PATH"),
            Report::File(path) => write!(f, "pusstore: cannot use {path}"),
            Report::Session(Ending::Done) => Ok(()),
            Report::Session(Ending::BadWords) => f.write_str(
                "pusstore: words: use run, fresh, format, list or generate NUMBER COUNT",
            ),
            Report::Session(Ending::BadLine { line, why }) => {
                write!(f, "pusstore: line {line}: {why}")
            }
            Report::Session(Ending::NotHeld) => f.write_str("pusstore: the flash holds no table"),
            Report::Session(Ending::FlashFault) => f.write_str("pusstore: flash fault"),
            Report::Session(Ending::LinkFault) => f.write_str("pusstore: link fault"),
            Report::Session(Ending::SourceFault) => f.write_str("pusstore: source fault"),
            Report::Session(
                Ending::Mismatch {
                    block,
                    page,
                    kept,
                    found,
                },
            ) => write!(
                f,
                "pusstore: block {block} page {page}: kept {kept} found {found}"
            ),
            Report::Session(Ending::NoMemory) => f.write_str("pusstore: no memory"),
        }
    }
}
