// The words that the program is called with.
ghost use Rattle.std.specs.Prelude.{◌≡◌};
ghost use Rattle.station.specs.Words.{texts_of};
ghost use Rattle.pusstore.specs.Making.{makes_file};

use crate::report::Report;
use clap::error::ErrorKind as WordsKind;
use clap::{Arg, ArgAction, ArgMatches, Command, Error};
use station::Ending;
use std::alloc::{AllocError, Global};
use std::env;
use std::io::ErrorKind;

/// The version that `--version` prints.
const VERSION: &str = "0.1.0";

/// How the program is called, as `--help` prints it.
const USAGE: &str = "pusstore mem N WORD..\n       pusstore file PATH WORD..";

/// What the words are, as `--help` prints it.
const WORDS: &str = "\
N is 16 to 512 blocks of 65,536 octets. The file at PATH has as many. A PATH that begins with - stands behind --.
WORD is one of:
  run     carries out the text of standard input on the table that the device holds
  fresh   formats the device, and carries out the text
  format  formats the device
  list    prints the table that the device holds
  generate NUMBER COUNT
          formats the device, carries out generated traffic of COUNT arrivals, and prints one line of counts";

/// What the program is called for.
#[derive(Drop)]
pub enum Call {
    /// These words, behind its name.
    Words(Vec<String>),
    /// To print this text: the help, or the version.
    Print(String),
}

// One positional argument of any number of values.
fn command<'a>(alloc: Global) -> Result<Command<'a>, AllocError> {
    let word = Arg::new(alloc, "WORD")
        .action(ArgAction::Append)
        .num_args(0..);
    Command::new(alloc, "pusstore")
        .version(VERSION)
        .override_usage(USAGE)
        .after_help(WORDS)
        .arg(word)
}

// What a refusal of the words asks for.
fn refused(alloc: Global, error: &Error) -> Result<Call, Report> {
    match error.kind() {
        WordsKind::DisplayHelp | WordsKind::DisplayVersion => match format!(in alloc; "{error}") {
            Ok(text) => Ok(Call::Print(text)),
            Err(_) => Err(Report::Session(Ending::NoMemory)),
        },
        WordsKind::OutOfMemory => Err(Report::Session(Ending::NoMemory)),
        _ => Err(Report::Device),
    }
}

// Copies the values of the argument.
fn copied(alloc: Global, matches: &ArgMatches<'_>) -> Result<Vec<String>, AllocError> {
    let mut words = Vec::new(alloc);
    if let Some(values) = matches.get_strs("WORD") {
        for value in values {
            words.push(String::from_str(alloc, value)?)?;
        }
    }
    Ok(words)
}

/// What all words of the program, the first of which is its name, call it for. A word that begins with `-` is refused,
/// as one that names no device; `-` alone is a value, and so is each word behind the first `--`.
pub fn call_of(alloc: Global, all: &Vec<String>) -> Result<Call, Report> {
    let Ok(command) = command(alloc) else {
        return Err(Report::Session(Ending::NoMemory));
    };
    let matches = match command.try_get_matches_from(all.as_slice()) {
        Ok(matches) => matches,
        Err(error) => return refused(alloc, &error),
    };
    match copied(alloc, &matches) {
        Ok(words) => Ok(Call::Words(words)),
        Err(_) => Err(Report::Session(Ending::NoMemory)),
    }
}

/// All words that the program is called with, the first of which is its name.
pub fn all_words(rt: &HostRuntime) -> Result<Vec<String>, Report> {
    let args = match env::args(rt) {
        Ok(args) => args,
        Err(error) if error.kind() == ErrorKind::OutOfMemory => {
            return Err(Report::Session(Ending::NoMemory));
        }
        Err(_) => return Err(Report::Device),
    };
    match args.collect::<Vec<String>>(rt.alloc()) {
        Ok(words) => Ok(words),
        Err(_) => Err(Report::Session(Ending::NoMemory)),
    }
}

/// Whether a session with these words may make the file of its device: those may that begin with a
/// format.
pub fn may_make(words: &Vec<String>) -> bool
    ensures { result ≡ makes_file (texts_of words.now) }
{
    let Some(word) = words.first() else {
        return false;
    };
    let word = word.as_str();
    word == "fresh" || word == "format" || word == "generate"
}
