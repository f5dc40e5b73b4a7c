//! How much memory the program had taken, for people who are told that there was no more.

ghost use Rattle.std.specs.List.{take_while};
ghost use Rattle.std.specs.Prelude.{◌≡◌, None, length};
ghost use Rattle.ev_text.specs.Scans.{whole_at};
ghost use Rattle.job_listeners.specs.MostMemory.{is_blank, most_memory, number_behind, number_taken};

use ev_outside::{FileShelf, Shelf};
use ev_text::Scan;
use job_ending::{Diagnostics, Message, SystemDiagnostics};
use std::alloc::Global;
use std::fmt::{self, Display, Formatter};
use std::io::Eprint;
use std::rt::Files;

/// What stands in front of the number in the status of a process.
const MARK: &[u8] = b"VmHWM:";

/// Where Linux keeps the status of the process that asks.
const STATUS: &str = "/proc/self/status";

/// How many bytes of it are read.
const MOST_BYTES: usize = 8192;

/// The most memory that a process had taken, in kilobytes of 1024 bytes, by the text of its status
/// as Linux tells it: the number behind the first `VmHWM:` and blanks. `None` where none stands
/// there.
pub fn most_memory(status: &[u8]) -> Option<u64>
    ensures { result ≡ most_memory status.now }
{
    for at in 0..status.len() {
        let rest = &status[at..];
        if rest.starts_with(MARK) {
            return number_behind(&rest[MARK.len()..]);
        }
    }
    None
}

/// The number behind blanks.
fn number_behind(text: &[u8]) -> Option<u64>
    ensures { result ≡ number_behind text.now }
{
    let blanks = blank_count(text);
    number_at(&text[blanks..], u64::MAX)
}

/// How many blanks stand in front of a text.
fn blank_count(text: &[u8]) -> usize
    ensures { result ≡ length (take_while is_blank text.now) }
{
    text.iter().take_while(|byte| is_blank(**byte)).count()
}

fn is_blank(byte: u8) -> bool
    ensures { result ≡ is_blank byte }
{
    byte == b' ' || byte == b'\t'
}

/// The number in front of a text, where it is at most `most`.
fn number_at(text: &[u8], most: u64) -> Option<u64>
    ensures { result ≡ number_taken (whole_at most (text.now, 0)) }
{
    let mut scan = Scan::new(text);
    match scan.whole(u128::from(most)) {
        Ok(number) => Some(number as u64),
        Err(_) => None,
    }
}

/// That memory was refused after so many kilobytes had been taken.
#[derive(Clone, Copy, Drop)]
pub struct OutOfMemory {
    pub kilobytes: u64,
}

impl Display for OutOfMemory {
    fn fmt<W: fmt::Write>(&self, f: &mut Formatter<W>) -> fmt::Result {
        let megabytes = self.kilobytes / 1024;
        f.write_str("out of memory after ")?;
        if megabytes < 1000 {
            write!(f, "{megabytes} MB")
        } else {
            write!(f, "{},{:03} MB", megabytes / 1000, megabytes % 1000)
        }
    }
}

/// Standard error, where people are told beside want of memory how much had been taken. Nothing is
/// done where it fails.
#[derive(Drop)]
pub struct PlainDiagnostics<'a, R: Eprint + Files> {
    alloc: Global,
    rt: &'a R,
    program: &'a str,
}

impl<'a, R: Eprint + Files> PlainDiagnostics<'a, R> {
    /// The standard error of the runtime, for a program of this name.
    pub fn new(alloc: Global, rt: &'a R, program: &'a str) -> Self {
        PlainDiagnostics { alloc, rt, program }
    }

    /// The most memory that had been taken, where the system tells it.
    fn kilobytes(&self) -> Option<u64> {
        let mut status = Vec::new(self.alloc);
        let mut files = FileShelf::new(self.alloc, self.rt);
        files.read(STATUS, MOST_BYTES, &mut status).ok()?;
        most_memory(status.as_slice())
    }
}

impl<'a, R: Eprint + Files> Diagnostics for PlainDiagnostics<'a, R> {
    ghost told = { λ _. None };

    fn tell(&mut self, message: Message<'_>) {
        if let Message::Memory = message {
            if let Some(kilobytes) = self.kilobytes() {
                let program = self.program;
                let taken = OutOfMemory { kilobytes };
                let _ = eprintln!(self.rt; "{program}: {taken}");
                return;
            }
        }
        SystemDiagnostics::new(self.rt, self.program).tell(message);
    }
}
