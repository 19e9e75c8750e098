// The work of the program qbx, with its words handed in: the image's file is read, the store asked, the file replaced and
// the answer said.
#![tactic(auto)]

ghost use Rattle.std.specs.Prelude.{◌≡◌, false, ◌<◌, ◌≤◌, length, IfSome};
ghost use Rattle.request.specs.Request.{size_of};
ghost use Rattle.qbx_verbs.specs.Verbs.{prints};

use model::{Answer, Geometry, Performed};
use qbx_images::ImageFile;
use qbx_out::{Console, fail, give, print, save, send};
use qbx_system::System;
use qbx_verbs::Verb;
use qbx_words::Command;

// Has the image's file in the buffer: the file's own bytes, or a chip from the factory where format finds none.
fn present(
    system: &mut System,
    image: &mut [u8],
    path: &[u8],
    command: Command,
) -> Option<ImageFile>
    requires { size_of command.segments command.slots < length image.old }
    ensures { IfSome result (λ file. file.count ≤ length image.new) }
{
    let size = request::size_of(command.segments as usize, command.slots as usize);
    let makes = matches!(command.verb, Verb::Format);
    qbx_images::present(system, image, path, size, makes)
}

// Says an answer and the steps done; beside a wrong size what N and B ask for, and the bytes that are there.
fn tell(fd: i32, performed: Performed, command: Command, there: u64) {
    if let Answer::Size = performed.answer {
        print(
            fd,
            qbx_says::say_size(command.segments as usize, command.slots as usize, there),
        );
        return;
    }
    print(fd, qbx_says::say_performed(performed));
}

// A verb that writes. Steps that were done are in the file before they are said.
fn change(
    system: &mut System,
    image: &mut [u8],
    path: &[u8],
    command: Command,
    contents: &[u8],
    there: u64,
    console: Console,
) {
    let performed = qbx_requests::perform(image, command, contents);
    if performed.steps > 0 && !save(system, console, path, image) {
        return;
    }
    tell(console.out, performed, command, there);
}

// The contents alone go out, and the answer with what is wrong.
fn get(system: &mut System, image: &[u8], command: Command, there: u64, console: Console) {
    let found = store::read(
        image,
        command.segments as usize,
        command.slots as usize,
        command.block,
    );
    let contents = qbx_images::piece(image, found.offset, found.length);
    if give(system, console, contents) {
        let answer = found.answer;
        tell(console.err, Performed { answer, steps: 0 }, command, there);
    }
}

// The state of the image, or that it has not the right size.
fn check(image: &[u8], command: Command, there: u64, out: i32) {
    let geometry = Geometry {
        segments: command.segments as usize,
        slots: command.slots as usize,
    };
    if !request::right_size(image.len(), geometry.segments, geometry.slots) {
        let answer = Answer::Size;
        tell(out, Performed { answer, steps: 0 }, command, there);
        return;
    }
    print(
        out,
        qbx_state::say_report(qbx_report::report_on(image, geometry)),
    );
}

// A command on the image's bytes.
fn act(
    system: &mut System,
    image: &mut [u8],
    path: &[u8],
    command: Command,
    contents: &[u8],
    there: u64,
    console: Console,
) {
    match command.verb {
        Verb::Get => get(system, &image[..], command, there, console),
        Verb::Check => check(&image[..], command, there, console.out),
        Verb::Format
        | Verb::Put
        | Verb::Delete
        | Verb::Recover
        | Verb::Account
        | Verb::Map
        | Verb::Salvage => change(system, image, path, command, contents, there, console),
    }
}

// A command that prints no text, on the image's file in a buffer that holds the image and more, so that a larger file is seen to
// be one. What it says goes to the one descriptor, and what is wrong to the other, beside a read's answer: its contents go out alone.
pub fn obey(
    system: &mut System,
    image: &mut [u8],
    path: &[u8],
    command: Command,
    contents: &[u8],
    console: Console,
)
    requires { (size_of command.segments command.slots < length image.old) × (prints command.verb ≡ false) }
{
    let Some(file) = present(system, image, path, command) else {
        fail(system, console, b"read ", path);
        return;
    };
    let n = file.count;
    act(
        system,
        &mut image[..n],
        path,
        command,
        contents,
        file.there,
        console,
    );
}

// A text about the image's file, in a buffer of its own beside the image's; nothing else goes out, and where a wrong size gives
// none, that is told with what is wrong. It is not done by `obey`: what it needs of the stack would be taken for every command.
pub fn show(
    system: &mut System,
    image: &mut [u8],
    text: &mut [u8],
    path: &[u8],
    command: Command,
    console: Console,
)
    requires { size_of command.segments command.slots < length image.old }
{
    let Some(file) = present(system, image, path, command) else {
        fail(system, console, b"read ", path);
        return;
    };
    let n = file.count;
    let printed = qbx_texts::describe(&image[..n], command, text);
    let answer = printed.answer;
    if let Answer::ShortBuffer = answer {
        io::write_all(console.err, b"qbx: the text is longer than its buffer\n");
        return;
    }
    if let Answer::Size = answer {
        tell(
            console.err,
            Performed { answer, steps: 0 },
            command,
            file.there,
        );
        return;
    }
    let length = printed.length;
    send(system, console, &text[..length]);
}
