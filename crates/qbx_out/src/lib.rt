// What the programs say, written out, and what they hand on, to its file or out.
#![tactic(auto)]

ghost use Rattle.std.specs.Prelude.{◌≡◌, ◌<◌, ◌≤◌, pos};
ghost use Rattle.qbx_lines.specs.Lines.{most_line};

use qbx_lines::Line;
use qbx_system::{STDERR_FILENO, STDOUT_FILENO, System};
use qbx_words::Complaint;

// A program, by its name.
#[derive(Clone, Copy)]
pub enum Program {
    Qbx,
    Settings,
}

// The program that speaks, and the descriptors for what it says and for what is wrong.
#[derive(Clone, Copy)]
pub struct Console {
    pub program: Program,
    pub out: i32,
    pub err: i32,
}

impl Console {
    // What is wrong goes apart from what is said.
    pub fn apart(program: Program) -> Console
        ensures { result ≡ record { program = program; out = pos 1; err = pos 2 } }
    {
        Console {
            program,
            out: STDOUT_FILENO,
            err: STDERR_FILENO,
        }
    }

    // All goes to standard output, as it comes.
    pub fn joined(program: Program) -> Console
        ensures { result ≡ record { program = program; out = pos 1; err = pos 1 } }
    {
        Console {
            program,
            out: STDOUT_FILENO,
            err: STDOUT_FILENO,
        }
    }
}

// Says a line.
pub fn print(fd: i32, line: Line)
    requires { line.count ≤ most_line }
{
    let bytes = line.bytes;
    let n = line.count;
    io::write_all(fd, &bytes[..n]);
}

// Says what could not be done with a file, on standard error with the system's reason.
pub fn fail(system: &System, console: Console, what: &[u8], path: &[u8]) {
    let err = console.err;
    match console.program {
        Program::Qbx => io::write_all(err, b"qbx"),
        Program::Settings => io::write_all(err, b"settings"),
    };
    io::write_all(err, b": cannot ");
    io::write_all(err, what);
    if err == STDERR_FILENO {
        system.fail(path);
        return;
    }
    io::write_all(err, path);
    io::write_all(err, b"\n");
}

// Has an image in its file, or says that it could not be written. Whether it is there is the system's word, of which nothing is
// proved.
pub fn save(system: &mut System, console: Console, path: &[u8], image: &[u8]) -> bool {
    let saved = qbx_files::replace(system, path, image);
    if !saved {
        fail(system, console, b"write ", path);
    }
    saved
}

// Bytes alone go out, or it is said that they could not; whether they did is the system's word too.
pub fn send(system: &mut System, console: Console, bytes: &[u8]) -> bool {
    let sent = system.write_all(console.out, bytes);
    if !sent {
        fail(system, console, b"write ", b"standard output");
    }
    sent
}

// The same of contents that an answer follows. Where it goes there too, a line end keeps them apart.
pub fn give(system: &mut System, console: Console, contents: &[u8]) -> bool {
    let sent = send(system, console, contents);
    if sent && console.out == console.err && !contents.is_empty() {
        io::write_all(console.out, b"\n");
    }
    sent
}

// Says that an image of so many bytes needs more KiB of stack than are allowed.
pub fn lack_stack(bytes: usize, needed: u64, allowed: u64, err: i32)
    requires { allowed < needed }
{
    print(err, qbx_says::say_stack(bytes as u64, needed, allowed));
}

// Says what is wrong with a command's words.
pub fn complain(complaint: Complaint, err: i32) {
    print(err, qbx_says::say_complaint(complaint));
}
