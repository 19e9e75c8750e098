// What the programs ask of the system: the words of the command line, files by name, and standard output and error. Each call that
// fails leaves the system's reason, and that stays to be told until another one fails (`kept`). Nothing is promised of what the
// system does.
#![tactic(auto)]

ghost use Rattle.std.specs.Prelude.{◌≡◌, ◌≤◌, length, drop, [], ◌∷◌, true, pos, IsSome};
ghost use Rattle.io.specs.Counts.{IsPrefixLen};
ghost use Rattle.qbx_system.specs.Reasons.{number_of};

use std::env::FillError;
use std::fs::{File, Metadata, OpenOptions};
use std::io::{Error, ErrorKind, Read, StdinLock};
use std::rt::Env;
use std::{fmt, fs};

// The descriptors of standard output and standard error.
pub const STDOUT_FILENO: i32 = 1;

pub const STDERR_FILENO: i32 = 2;

// The system's numbers of some reasons: there is no such file, a failure that it gives no number, a name that no file can have, a
// name that is too long, and one that is no text, which can't be handed on.
pub const ENOENT: i32 = 2;

const EIO: i32 = 5;

const EINVAL: i32 = 22;

pub const ENAMETOOLONG: i32 = 36;

const EILSEQ: i32 = 84;

// The system, and the number of its last reason.
#[derive(Drop)]
pub struct System {
    rt: HostRuntime,
    reason: i32,
}

// The system's number of an error; a name with a NUL in it is one that no file can have.
#[tactic(auto, unfolding(crate::specs::Reasons::number_of, crate::specs::Reasons::number_by, crate::specs::Reasons::kind_number))]
fn number_of(error: Error) -> i32
    ensures { result ≡ number_of error }
{
    match error.raw_os_error() {
        Some(number) => number,
        None => match error.kind() {
            ErrorKind::InvalidInput => EINVAL,
            _ => EIO,
        },
    }
}

// The most bytes of a reason's text, with its number behind it.
const MOST_REASON: usize = 128;

// A text as far as there is room.
#[derive(Drop)]
struct Reason {
    text: [u8; MOST_REASON],
    count: usize,
}

impl fmt::Write for Reason {
    fn write_str(&mut self, s: &str) -> fmt::Result {
        for byte in s.as_bytes() {
            if self.count < MOST_REASON {
                self.text[self.count] = *byte;
                self.count += 1;
            }
        }
        Ok(())
    }
}

// How many bytes of a reason's text stand before its number, which is said as " (os error 2)".
fn before_number(count: usize, number: i32) -> usize
    ensures { result ≤ count }
{
    let mut digits = [0u8; 20];
    let behind = 12 + io::decimal(u64::from(number.unsigned_abs()), &mut digits);
    if count < behind {
        return count;
    }
    count - behind
}

impl System {
    pub fn new(rt: HostRuntime) -> System
        ensures { result.reason ≡ pos 0 }
    {
        System { rt, reason: 0 }
    }

    // The number of the last reason; 0 if nothing failed.
    pub fn reason(&self) -> i32
        ensures { result ≡ self.now.reason }
    {
        self.reason
    }

    // Takes the reason of a call that failed.
    pub fn take(&mut self, error: Error)
        ensures { self.new.reason ≡ number_of error }
    {
        self.reason = number_of(error);
    }

    // Says on standard error of what the last call failed, and the system's reason.
    pub fn fail(&self, what: &[u8]) {
        let mut reason = Reason {
            text: [0u8; MOST_REASON],
            count: 0,
        };
        let number = self.reason;
        let _ = fmt::Write::write(&mut reason, Error::from_raw_os_error(number));
        let n = before_number(reason.count.min(MOST_REASON), number);
        io::write_all(STDERR_FILENO, what);
        io::write_all(STDERR_FILENO, b": ");
        io::write_all(STDERR_FILENO, &reason.text[..n]);
        io::write_all(STDERR_FILENO, b"\n");
    }

    // How many words the command line has, the program's own name among them.
    pub fn arg_count(&self) -> usize {
        let mut none = [0u8; 1];
        for i in 0..usize::MAX {
            if let Err(FillError::NotPresent) = self.rt.arg(i, &mut none) {
                return i;
            }
        }
        usize::MAX
    }

    // Puts a word of the command line at the start of a buffer, and gives its length; 0 where it is missing or longer than that.
    // The reason is set each time, to 0 where the whole word is there.
    // Kept: a missing word is an empty one to every caller, and the reason tells them apart; an `Option` would be taken for 0 by each.
    pub fn arg(&mut self, i: usize, buf: &mut [u8]) -> usize
        ensures { IsPrefixLen result buf.new }
    {
        match self.rt.arg(i, buf) {
            Ok(n) => {
                self.reason = 0;
                n
            }
            Err(FillError::NotPresent) => {
                self.reason = EINVAL;
                0
            }
            Err(FillError::TooLong) => {
                self.reason = ENAMETOOLONG;
                0
            }
        }
    }

    // The same of a word that says a number or a verb, in a buffer of its own. Of one that is too long the start is given, with dots, so
    // that it means nothing.
    pub fn word<'a>(&mut self, i: usize, buf: &'a mut [u8; 64]) -> &'a [u8]
        ensures within { length result.now ≤ 64 }
        ensures dotted { self.new.reason ≡ pos 36 → drop 61 result.now ≡ 46 ∷ 46 ∷ 46 ∷ [] }
    {
        let n = self.arg(i, buf);
        if self.reason == ENAMETOOLONG {
            buf[61..].copy_from_slice(b"...");
            return &buf[..];
        }
        &buf[..n]
    }

    pub fn stdin(&self) -> StdinLock<'static> {
        self.rt.reader()
    }

    // Writes all bytes to standard output or standard error; whether that went well.
    pub fn write_all(&mut self, fd: i32, bytes: &[u8]) -> bool
        ensures kept { result ≡ true → self.new.reason ≡ self.old.reason }
    {
        let written = if fd == STDERR_FILENO {
            Print::write_all(&self.rt.stderr(), bytes)
        } else {
            Print::write_all(&self.rt.stdout(), bytes)
        };
        self.done(written)
    }

    // What a call gave; the reason is taken of one that failed.
    fn told<T: Drop>(&mut self, outcome: Result<T, Error>) -> Option<T>
        ensures kept { IsSome result → self.new.reason ≡ self.old.reason }
    {
        match outcome {
            Ok(value) => Some(value),
            Err(error) => {
                self.take(error);
                None
            }
        }
    }

    fn done(&mut self, outcome: Result<(), Error>) -> bool
        ensures kept { result ≡ true → self.new.reason ≡ self.old.reason }
    {
        self.told(outcome).is_some()
    }

    // A file's name, if it is text.
    fn name<'a>(&mut self, path: &'a [u8]) -> Option<&'a str>
        ensures kept { IsSome result → self.new.reason ≡ self.old.reason }
    {
        match str::from_utf8(path) {
            Ok(name) => Some(name),
            Err(_) => {
                self.reason = EILSEQ;
                None
            }
        }
    }

    pub fn open_read(&mut self, path: &[u8]) -> Option<File>
        ensures kept { IsSome result → self.new.reason ≡ self.old.reason }
    {
        let name = self.name(path)?;
        let outcome = File::open(&self.rt, name);
        self.told(outcome)
    }

    // Creates a file for writing, unless the name is taken.
    pub fn create(&mut self, path: &[u8]) -> Option<File>
        ensures kept { IsSome result → self.new.reason ≡ self.old.reason }
    {
        let name = self.name(path)?;
        let outcome = OpenOptions::new()
            .write(true)
            .create_new(true)
            .open(&self.rt, name);
        self.told(outcome)
    }

    pub fn remove(&mut self, path: &[u8]) -> bool
        ensures kept { result ≡ true → self.new.reason ≡ self.old.reason }
    {
        let Some(name) = self.name(path) else {
            return false;
        };
        let outcome = fs::remove_file(&self.rt, name);
        self.done(outcome)
    }

    pub fn rename(&mut self, from: &[u8], to: &[u8]) -> bool
        ensures kept { result ≡ true → self.new.reason ≡ self.old.reason }
    {
        let Some(old) = self.name(from) else {
            return false;
        };
        let Some(new) = self.name(to) else {
            return false;
        };
        let outcome = fs::rename(&self.rt, old, new);
        self.done(outcome)
    }

    // Writes all bytes to a file, and has them on the disk; whether both went well.
    pub fn write_file(&mut self, file: &mut File, bytes: &[u8]) -> bool
        ensures kept { result ≡ true → self.new.reason ≡ self.old.reason }
    {
        let written = std::io::Write::write_all(file, bytes);
        let is_written = self.done(written);
        let synced = file.sync_all();
        let is_synced = self.done(synced);
        is_written && is_synced
    }

    // All that is known of an open file.
    pub fn status(&mut self, file: &File) -> Option<Metadata>
        ensures kept { IsSome result → self.new.reason ≡ self.old.reason }
    {
        self.told(file.metadata())
    }
}
