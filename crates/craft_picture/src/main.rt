//! Draws a recorded run of CRaft: the program `craft_picture`.
#![tactic(auto)]

use craft_base::Shape;
use line_input::number;
use run_picture::{PictureEnd, picture};
use std::alloc::AllocError;
use std::env;
use std::fs::File;
use std::io::{BufReader, ErrorKind, Write, writer};
use std::process::ExitCode;
use std_adapters::{StdSink, StdSource};

const HELP: &str = "\
usage: craft_picture F SCHEDULE < TEXT > SVG
       craft_picture --help
       craft_picture --version

Draws a run as a space-time diagram, in SVG: a lane for each member of a cluster
that survives F failures (1 to 7), a column for each event, an arrow for each
frame. SCHEDULE is the file of its events, and TEXT what craft replay F k printed
of it, with any k; where the text ends early, so does the picture.

Exit status: 0 done, 2 bad words, 3 a bad line of the schedule, or one of the
text that the run of this schedule can't print there, 6 an input could not be
read, 7 the picture could not be written, 12 out of memory.

example: craft replay 1 1 < S | craft_picture 1 S > S.svg
";

const VERSION: &str = "craft_picture 0.1.0, for rattle-kit-13f\n";

/// How the program ends.
#[derive(Clone, Copy, Debug, PartialEq, Eq)]
enum Status {
    BadWords,
    /// The file of the schedule can't be opened.
    NoSchedule,
    Ended(PictureEnd),
}

fn main(rt: HostRuntime) -> ExitCode {
    let _places = [hold_place(&rt), hold_place(&rt), hold_place(&rt)];
    let status = match command_words(&rt) {
        Ok(words) => answer(&rt, &words),
        Err(status) => status,
    };
    if let Ok(text) = text_of(&rt, status) {
        let _ = rt.stderr().write_all(text.as_bytes());
    }
    ExitCode::from(code_of(status))
}

/// Opens a folder, which can be neither read nor written. So a standard stream that is closed stays one that fails: the system would
/// put the file of the schedule in its place, and the schedule would be read as the text.
fn hold_place(rt: &HostRuntime) -> Option<File> {
    File::open(rt, "/").ok()
}

/// The words of the command line without the program's name.
fn command_words(rt: &HostRuntime) -> Result<Vec<String>, Status> {
    let mut words = Vec::new(rt.alloc());
    let all = match env::args(rt) {
        Ok(all) => all,
        Err(error) if error.kind() == ErrorKind::OutOfMemory => {
            return Err(Status::Ended(PictureEnd::NoMemory));
        }
        Err(_) => return Err(Status::BadWords),
    };
    for word in all.skip(1) {
        if words.push(word).is_err() {
            return Err(Status::Ended(PictureEnd::NoMemory));
        }
    }
    Ok(words)
}

/// Does what the words ask for.
fn answer(rt: &HostRuntime, words: &[String]) -> Status {
    match words {
        [word] if word.as_str() == "--help" => print(rt, HELP),
        [word] if word.as_str() == "--version" => print(rt, VERSION),
        [faults, path] => match shape_of(faults.as_str()) {
            Some(shape) => draw(rt, &shape, path.as_str()),
            None => Status::BadWords,
        },
        _ => Status::BadWords,
    }
}

/// Prints a text of the program's own.
fn print(rt: &HostRuntime, text: &str) -> Status {
    match writer(rt).write_all(text.as_bytes()) {
        Ok(()) => Status::Ended(PictureEnd::End),
        Err(_) => Status::Ended(PictureEnd::SinkFault),
    }
}

/// The shape of a cluster that survives so many failures. How many fragments rebuild a value doesn't matter here.
fn shape_of(faults: &str) -> Option<Shape> {
    let faults = u8::try_from(number(faults.as_bytes())?).ok()?;
    Shape::new(faults, 1).ok()
}

/// Draws the run of the schedule at that path, whose text comes on standard input.
fn draw(rt: &HostRuntime, shape: &Shape, path: &str) -> Status {
    let Ok(file) = File::open(rt, path) else {
        return Status::NoSchedule;
    };
    let alloc = rt.alloc();
    let (Ok(schedule), Ok(text)) = (
        BufReader::new(alloc, file),
        BufReader::new(alloc, rt.reader()),
    ) else {
        return Status::Ended(PictureEnd::NoMemory);
    };
    let mut schedule = StdSource::new(schedule);
    let mut text = StdSource::new(text);
    let mut out = StdSink::new(writer(rt));
    Status::Ended(picture(alloc, shape, &mut schedule, &mut text, &mut out))
}

/// The exit code, as the program `craft` has it for the same cause.
fn code_of(status: Status) -> u8 {
    match status {
        Status::BadWords => 2,
        Status::NoSchedule => 6,
        Status::Ended(end) => match end {
            PictureEnd::End => 0,
            PictureEnd::BadSchedule { .. } | PictureEnd::BadText { .. } => 3,
            PictureEnd::ScheduleFault | PictureEnd::TextFault => 6,
            PictureEnd::SinkFault => 7,
            PictureEnd::NoMemory => 12,
        },
    }
}

/// The text on standard error: nothing where the picture was written, and one line else.
fn text_of(rt: &HostRuntime, status: Status) -> Result<String, AllocError> {
    let alloc = rt.alloc();
    match status {
        Status::BadWords => format!(in alloc; "craft_picture: bad words\n"),
        Status::NoSchedule => format!(in alloc; "craft_picture: schedule failed\n"),
        Status::Ended(end) => match end {
            PictureEnd::End => format!(in alloc; ""),
            PictureEnd::BadSchedule { line } => format!(in alloc;
                "craft_picture: bad schedule at line {line}\n"
            ),
            PictureEnd::BadText { line } => format!(in alloc;
                "craft_picture: bad text at line {line}\n"
            ),
            PictureEnd::ScheduleFault => format!(in alloc; "craft_picture: schedule failed\n"),
            PictureEnd::TextFault => format!(in alloc; "craft_picture: text failed\n"),
            PictureEnd::SinkFault => format!(in alloc; "craft_picture: sink failed\n"),
            PictureEnd::NoMemory => format!(in alloc; "craft_picture: out of memory\n"),
        },
    }
}
