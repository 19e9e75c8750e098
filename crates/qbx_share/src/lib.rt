// The work of a tenant's command, with its words handed in: the file of shares and the image's file are read, the library asked,
// the image's file replaced and the answer said.
#![tactic(auto)]

ghost use Rattle.std.specs.Prelude.{◌<◌, ◌≤◌, length, IfSome};
ghost use Rattle.request.specs.Request.{size_of};

use model::Answer;
use qbx_out::{Console, fail, give, print, save};
use qbx_same::Clash;
use qbx_share_file::WrongLine;
use qbx_share_words::{ShareCommand, ShareVerb};
use qbx_system::System;

// Three numbers for each of 41 tenants: one more than there may be, so that too many are seen.
const NUMBERS: usize = 123;

// The most bytes of a file of shares.
const MOST_TEXT: usize = 4096;

// Says an answer; beside a wrong size what N and B ask for, and the bytes that are there.
fn tell(fd: i32, answer: Answer, command: ShareCommand, there: u64) {
    if let Answer::Size = answer {
        print(
            fd,
            qbx_share_says::say_shared_size(
                command.segments as usize,
                command.slots as usize,
                there,
            ),
        );
        return;
    }
    print(fd, qbx_share_says::say_shared(answer));
}

// A command on the image's bytes. What was done is in the file, and what was read is out, before it is said.
fn act(
    system: &mut System,
    image: &mut [u8],
    path: &[u8],
    shares: &[u32],
    command: ShareCommand,
    contents: &[u8],
    there: u64,
    console: Console,
) {
    let mut given = [0u8; 248];
    let printed = qbx_share_request::perform(image, shares, command, contents, &mut given);
    let answer = printed.answer;
    if let ShareVerb::Get = command.verb {
        let read = qbx_images::piece(&given, 0, printed.length);
        if give(system, console, read) {
            tell(console.err, answer, command, there);
        }
        return;
    }
    if matches!(answer, Answer::Done) && !save(system, console, path, &image[..]) {
        return;
    }
    tell(console.out, answer, command, there);
}

// A command on the image's file, with the shares.
fn work(
    system: &mut System,
    image: &mut [u8],
    path: &[u8],
    shares: &[u32],
    command: ShareCommand,
    contents: &[u8],
    console: Console,
)
    requires { size_of command.segments command.slots < length image.old }
{
    let size = request::size_of(command.segments as usize, command.slots as usize);
    let Some(file) = qbx_images::present(system, image, path, size, false) else {
        fail(system, console, b"read ", path);
        return;
    };
    let n = file.count;
    act(
        system,
        &mut image[..n],
        path,
        shares,
        command,
        contents,
        file.there,
        console,
    );
}

// Reads the file of shares: how many bytes, if they could be had, by the system's word.
fn text_of(system: &mut System, path: &[u8], text: &mut [u8]) -> Option<usize>
    ensures { IfSome result (λ n. n ≤ length text.new) }
{
    let mut file = system.open_read(path)?;
    qbx_files::fill(system, &mut file, text).ok()
}

// A command with the file of shares read.
fn serve(
    system: &mut System,
    image: &mut [u8],
    path: &[u8],
    shares_path: &[u8],
    command: ShareCommand,
    contents: &[u8],
    console: Console,
)
    requires { size_of command.segments command.slots < length image.old }
{
    // a byte more than it may have, so that a longer file is seen to be one
    let mut text = [0u8; MOST_TEXT + 1];
    let Some(n) = text_of(system, shares_path, &mut text) else {
        fail(system, console, b"read ", shares_path);
        return;
    };
    if n > MOST_TEXT {
        io::write_all(console.err, b"qbx: SHARES is longer than 4096 bytes\n");
        return;
    }
    let mut shares = [0u32; NUMBERS];
    let listing = qbx_share_file::read_shares(&text[..n], &mut shares);
    match listing {
        Ok(count) => work(
            system,
            image,
            path,
            &shares[..count],
            command,
            contents,
            console,
        ),
        Err(WrongLine(line)) => print(console.err, qbx_share_says::say_wrong_line(line)),
    }
}

// A command on the image's file in a buffer that holds the image and more, so that a larger file is seen to be one. What it says
// goes to the one descriptor, and what is wrong to the other, beside a read's answer: its contents go out alone. The file that is
// written beside the image's, and given its name, may not be the file of shares: it would be gone.
pub fn obey(
    system: &mut System,
    image: &mut [u8],
    path: &[u8],
    shares_path: &[u8],
    command: ShareCommand,
    contents: &[u8],
    console: Console,
)
    requires { size_of command.segments command.slots < length image.old }
{
    let clash = qbx_same::clash_of(system, shares_path, path);
    if let Clash::SourceBeside = clash {
        io::write_all(
            console.err,
            b"qbx: SHARES is the file that is written beside IMAGE: name another\n",
        );
        return;
    }
    serve(system, image, path, shares_path, command, contents, console);
}
