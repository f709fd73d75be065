//! CRaft, a replicated key-value store over erasure-coded log entries: the program.
#![tactic(auto)]

ghost use Rattle.std.specs.Prelude.{◌≡◌, false, length, map, string_bytes, vec_len, IfOk, IfSome};
ghost use Rattle.command_words.specs.Words as commands;
ghost use Rattle.craft.specs.Program.{is_node, paths};

mod ask;
#[cfg(test)]
mod journal_tests;
#[cfg(test)]
mod linked_tests;
mod node;
mod paths;
mod status;
#[cfg(test)]
mod status_tests;
#[cfg(test)]
mod storm_tests;
#[cfg(test)]
mod tests;
mod top;
#[cfg(test)]
mod value_tests;

use command_words::{Command, plan};
use craft_base::OutOfMemory;
use craft_edge::{MemClock, MemLink};
use paths::{paths_of, place_of};
use status::{Status, code_of, text_of};
use std::env;
use std::fs::File;
use std::io::{BufReader, ErrorKind, Write, writer};
use std::net::UdpSocket;
use std::process::ExitCode;
use std_adapters::{FileDisk, StdSink, StdSource, TickClock, UdpLink, address_of};
use top::craft;

const HELP: &str = "\
usage: craft node F k me seed turns PATH place0 .. place2F
       craft ask F k client seq op key value place0 .. place2F
       craft replay F k < SCHEDULE
       craft split F k < VALUE
       craft join F k < FRAGMENTS
       craft storm F k seed count
       craft --help
       craft --version

A cluster has 2F+1 members and survives F failures (1 to 7). Any k fragments of
a value rebuild it (1 to F+1).

node is member me, 0 to 2F, with its journal at PATH, which is made where there
is none: never start a member anew whose journal is lost. It prints what happens
to it, and ends after so many turns, 1 to 1,000,000,000,000: a turn is a tick of
50 ms, or a packet, or a wait of 10 ms for one. seed is 0 to 2^64-1, another one
at each member. A place is where a member listens, as 127.0.0.1:7000; who can
send to it is trusted.

ask sends a client's request, up to 20 times, and prints the line of the reply.
client and seq are its number and its number for the request, 1 to 2^62; the
same number asked again takes effect once. op is put, putif=V (where the key has
version V, 0 for none), del or get; key is text of 1 to 255 bytes; value is up
to 32,768 bytes in lower case hexadecimal digits, - for none, and for del, get.

replay runs a schedule in a cluster, and prints what happens. A schedule has one
event a line, and each line ends with a line feed alone:

  tick i word   time passes at member i, 0 to 2F; with a word from 0 to 2^64-1
                it stands for election after 3 + word mod 8 quiet ticks
  take m        frame m, 1 to 2^64-1, is delivered; it may be taken again
  call i client seq op key value
                a client asks member i, as by ask, but the key is in digits too
  down i        member i goes down between two turns
  up i          member i starts anew over what its disk holds
  show i        what outlives a crash of member i is printed, where it runs
  stop c b e    e, a tick, take or call line, happens, and the machine stops in
                its device call c, 1 to 4; what is pending on the disk is kept
                where b is 1, and spoiled where it is 0; the member is then down

split prints the fragments of a value of at most 32,768 bytes, one a line. join
reads such lines, the value line and any k fragments or more, and writes the
value. Nothing has a checksum: join can't tell a damaged fragment from a good
one, and then writes a wrong value with status 0.

storm runs a schedule of count events, 1 to 100,000, that seed makes, 0 to
2^64-1, and prints six numbers: the events run, the peer frames sent, the
replies, how often a member told that it leads, the greatest commit index on any
disk, and how often one told of a cut. The same words give the same lines.

Exit status: 0 done, 2 bad words, 3 bad input, at the line that is told, 4 the
journal is bad, at the byte that is told, 5 it is another member's, 6 the input
could not be read, 7 the output could not be written (it is full, or its reader
is gone), 8 the journal could not be opened, read or written, 9 the socket could
not be bound or used, 10 no final reply came, 11 too few fragments, 12 out of
memory.

example: printf 'tick 0 0\\ntick 0 0\\ntick 0 0\\n' | craft replay 1 1
";

const VERSION: &str = "craft 0.1.0, for rattle-kit-13f\n";

fn main(rt: HostRuntime) -> ExitCode {
    let _places = [hold_place(&rt), hold_place(&rt), hold_place(&rt)];
    let status = match command_words(&rt) {
        Ok(words) => answer(&rt, &words),
        Err(status) => status,
    };
    if let Ok(text) = text_of(rt.alloc(), &status) {
        let _ = rt.stderr().write_all(text.as_bytes());
    }
    ExitCode::from(code_of(&status))
}

/// Opens a folder, which can be neither read nor written. So a standard stream that is closed stays one that fails: the system would
/// put the next file that is opened in its place, and a member's lines would go into its journal.
fn hold_place(rt: &HostRuntime) -> Option<File> {
    File::open(rt, "/").ok()
}

/// The words of the command line without the program's name.
fn command_words(rt: &HostRuntime) -> Result<Vec<String>, Status> {
    let mut words = Vec::new(rt.alloc());
    let all = match env::args(rt) {
        Ok(all) => all,
        Err(error) if error.kind() == ErrorKind::OutOfMemory => return Err(Status::NoMemory),
        Err(_) => return Err(Status::BadWords),
    };
    for word in all.skip(1) {
        if words.push(word).is_err() {
            return Err(Status::NoMemory);
        }
    }
    Ok(words)
}

/// Answers `--help` and `--version`, and leaves all other words to the top call.
fn answer(rt: &HostRuntime, words: &[String]) -> Status {
    match words {
        [word] if word.as_str() == "--help" => print(rt, HELP),
        [word] if word.as_str() == "--version" => print(rt, VERSION),
        _ => run(rt, words).unwrap_or(Status::NoMemory),
    }
}

/// Prints a text of the program's own.
fn print(rt: &HostRuntime, text: &str) -> Status {
    match writer(rt).write_all(text.as_bytes()) {
        Ok(()) => Status::Done,
        Err(_) => Status::SinkFault,
    }
}

/// Hands the top call what its command has outside.
fn run(rt: &HostRuntime, words: &[String]) -> Result<Status, OutOfMemory> {
    match plan(rt.alloc(), words)? {
        Some(Command::Node(_) | Command::Ask(_)) => run_linked(rt, words),
        _ => run_alone(rt, words),
    }
}

/// A command that has standard input and output.
fn run_alone(rt: &HostRuntime, words: &[String]) -> Result<Status, OutOfMemory>
    requires { is_node (commands.plan (map string_bytes words.now)) ≡ false }
{
    let alloc = rt.alloc();
    let mut src = StdSource::new(BufReader::new(alloc, rt.reader()).map_err(|_| OutOfMemory)?);
    let mut out = StdSink::new(writer(rt));
    let mut link = MemLink::new(Vec::new(alloc), Vec::new(alloc));
    let mut clock = MemClock::new(vec![in alloc; 0]?);
    let disks: Vec<FileDisk> = Vec::new(alloc);
    let (status, _) = craft(
        alloc, words, &mut src, &mut out, disks, &mut link, &mut clock,
    );
    Ok(status)
}

/// A command that has a socket and a clock too, and perhaps a journal. The socket is bound first: where its port is taken, no file is
/// made at the journal's path.
fn run_linked(rt: &HostRuntime, words: &[String]) -> Result<Status, OutOfMemory> {
    let alloc = rt.alloc();
    let Some(mut link) = open_link(rt, words)? else {
        return Ok(Status::LinkFault);
    };
    let Some(disks) = open_disks(rt, words)? else {
        return Ok(Status::DiskFault);
    };
    let mut src = StdSource::new(rt.reader());
    let mut out = StdSink::new(writer(rt));
    let mut clock = TickClock::new(rt);
    let (status, _) = craft(
        alloc, words, &mut src, &mut out, disks, &mut link, &mut clock,
    );
    Ok(status)
}

/// The files of the command's journals, where each can be opened.
fn open_disks(rt: &HostRuntime, words: &[String]) -> Result<Option<Vec<FileDisk>>, OutOfMemory>
    ensures { IfOk result (λ opened. IfSome opened (λ disks. vec_len disks ≡ length (paths (map string_bytes words.now)))) }
{
    let paths = paths_of(rt.alloc(), words)?;
    let mut disks = Vec::new(rt.alloc());
    for path in &paths {
        match FileDisk::open(rt, path.as_str()) {
            Ok(disk) => disks.push(disk)?,
            Err(_) => return Ok(None),
        }
    }
    Ok(Some(disks))
}

/// The socket, at the command's place or at any free port, where it can be bound.
fn open_link(rt: &HostRuntime, words: &[String]) -> Result<Option<UdpLink>, OutOfMemory> {
    let place = place_of(rt.alloc(), words)?.unwrap_or(0);
    match UdpSocket::bind(rt, address_of(place)) {
        Ok(socket) => Ok(UdpLink::new(socket).ok()),
        Err(_) => Ok(None),
    }
}
