// pusstore DEVICE PLACE [WORD]...: a session of the packet store over a text on standard input.
#![tactic(auto)]

mod image;
mod outcome;
mod report;
mod session;
mod words;

use image::open_image;
use image_board::FileBoard;
use report::Report;
use session::{file_session, session};
use station::{Device, Ending, device_of};
use std::io::ErrorKind;
use std::process::ExitCode;
use words::{Call, all_words, call_of, may_make};

// A session on a device in the file at this path, which is made if it is absent and the words ask for it.
fn run_in_file(rt: &HostRuntime, path: String, words: &Vec<String>) -> Report {
    match open_image(rt, path.as_str(), may_make(words)) {
        Ok(image) => {
            let mut board = FileBoard::new(image.file, image.blocks, rt.stdout());
            Report::Session(file_session(rt.alloc(), words, rt.stdin(), &mut board))
        }
        Err(error) if error.kind() == ErrorKind::OutOfMemory => Report::Session(Ending::NoMemory),
        Err(_) => Report::File(path),
    }
}

// Prints the help or the version.
fn print_text(rt: &HostRuntime, text: &str) -> Report {
    match print!(rt; "{text}") {
        Ok(()) => Report::Session(Ending::Done),
        Err(_) => Report::Session(Ending::LinkFault),
    }
}

// A session with these words.
fn run_words(rt: &HostRuntime, words: Vec<String>) -> Report {
    let Some(device) = device_of(&words) else {
        return Report::Device;
    };
    let mut words = words.into_iter().skip(1);
    let Some(place) = words.next() else {
        return Report::Device;
    };
    let Ok(words) = words.collect::<Vec<String>>(rt.alloc()) else {
        return Report::Session(Ending::NoMemory);
    };
    match device {
        Device::Memory(blocks) => Report::Session(session(
            rt.alloc(),
            &words,
            blocks,
            rt.stdin(),
            &mut rt.stdout(),
        )),
        Device::File => run_in_file(rt, place, &words),
    }
}

fn run(rt: &HostRuntime) -> Report {
    let all = match all_words(rt) {
        Ok(all) => all,
        Err(report) => return report,
    };
    match call_of(rt.alloc(), &all) {
        Ok(Call::Words(words)) => run_words(rt, words),
        Ok(Call::Print(text)) => print_text(rt, text.as_str()),
        Err(report) => report,
    }
}

fn main(rt: HostRuntime) -> ExitCode {
    let report = run(&rt);
    if !report.is_done() {
        let _ = eprintln!(rt; "{report}");
    }
    report.status()
}

#[cfg(test)]
mod tests;
