// account FILE: the account of a board's image (request #101), of 4 segments with 15 slots each, on standard output.
#![tactic(auto)]

use model::Answer;
use qbx_system::{STDERR_FILENO, STDOUT_FILENO, System};

fn usage() {
    io::write_all(
        STDERR_FILENO,
        b"usage: account FILE, the image of a board: 4 segments with 15 slots each, 16384 bytes\n",
    );
}

// Says what could not be done with a file, with the system's reason.
fn fail(system: &System, what: &[u8], path: &[u8]) {
    io::write_all(STDERR_FILENO, b"account: cannot ");
    io::write_all(STDERR_FILENO, what);
    system.fail(path);
}

// The account of an image. The longest one of a board has 2,220 bytes.
fn print(system: &mut System, image: &[u8]) {
    let mut text = [0u8; 4096];
    let printed = accounts::account(image, 4, 15, &mut text);
    if let Answer::ShortBuffer = printed.answer {
        io::write_all(
            STDERR_FILENO,
            b"account: the text is longer than its buffer\n",
        );
        return;
    }
    if !system.write_all(STDOUT_FILENO, &text[..printed.length]) {
        fail(system, b"write ", b"standard output");
    }
}

// A byte more than a board has is read, so that a larger file is seen to be one.
fn account(system: &mut System, path: &[u8]) {
    let Some(mut file) = system.open_read(path) else {
        fail(system, b"read ", path);
        return;
    };
    let mut image = [0u8; 16385];
    let Ok(n) = qbx_files::fill(system, &mut file, &mut image) else {
        fail(system, b"read ", path);
        return;
    };
    print(system, &image[..n]);
}

fn main(rt: HostRuntime) {
    let mut system = System::new(rt);
    let mut path = io::buffer();
    let n = system.arg(1, &mut path);
    if n == 0 || system.arg_count() != 2 {
        usage();
        return;
    }
    account(&mut system, &path[..n]);
}
