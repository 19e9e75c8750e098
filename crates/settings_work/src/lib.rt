// The work of the program settings, with its words handed in: the file of the layout and the image's file are read, the library
// asked, the image's file replaced and the answer said.
#![tactic(auto)]

use qbx_out::{Console, fail, give, print, save, send};
use qbx_same::Clash;
use qbx_share_file::WrongLine;
use qbx_system::System;
use settings_list::MOST_LIST;
use settings_says::say_answer;
use settings_words::{Command, Complaint, Verb};

// The most bytes of an image.
const MOST_IMAGE: usize = 1048576;

// The most bytes of a file of a layout.
const MOST_TEXT: usize = 4096;

// A pair for each of 256 items: one more than a right table has, so that too many are seen. `most_layout` in the specs of
// `settings_item_lines`.
const MOST_LAYOUT: usize = 512;

// Says what is wrong with a command's words.
pub fn complain(complaint: Complaint, err: i32) {
    print(err, settings_says::say_complaint(complaint));
}

// Steps that were done are in the file before they are said.
fn write(
    system: &mut System,
    image: &mut [u8],
    path: &[u8],
    layout: &[u8],
    command: Command,
    contents: &[u8],
    console: Console,
) {
    let there = image.len() as u64;
    let written = settings_request::write(image, layout, command, contents);
    if written.steps > 0 && !save(system, console, path, image) {
        return;
    }
    print(console.out, settings_says::say_written(written, there));
}

// The data alone go out, and the answer with what is wrong.
fn read(system: &mut System, image: &[u8], layout: &[u8], command: Command, console: Console) {
    let spot = settings_request::read(image, layout, command);
    let data = qbx_images::piece(image, spot.offset, spot.length);
    if give(system, console, data) {
        print(console.err, say_answer(spot.answer, image.len() as u64));
    }
}

// The text alone goes out; what refuses it is told with what is wrong.
fn list(system: &mut System, image: &[u8], layout: &[u8], command: Command, console: Console) {
    let mut text = [0u8; MOST_LIST];
    let listed = settings_request::list(&mut text, image, layout, command);
    match listed {
        Ok(n) => {
            send(system, console, &text[..n]);
        }
        Err(answer) => print(console.err, say_answer(answer, image.len() as u64)),
    }
}

// A command on the image's bytes.
fn act(
    system: &mut System,
    image: &mut [u8],
    path: &[u8],
    layout: &[u8],
    command: Command,
    contents: &[u8],
    console: Console,
) {
    match command.verb {
        Verb::Read => read(system, &image[..], layout, command, console),
        Verb::Write => write(system, image, path, layout, command, contents, console),
        Verb::List => list(system, &image[..], layout, command, console),
    }
}

// A command on the image's file, in a buffer of a byte more than an image may have, so that a larger file is seen to be one.
fn work(
    system: &mut System,
    image: &mut [u8],
    path: &[u8],
    layout: &[u8],
    command: Command,
    contents: &[u8],
    console: Console,
) {
    let Some(file) = qbx_images::present(system, image, path, 0, false) else {
        fail(system, console, b"read ", path);
        return;
    };
    let n = file.count;
    if n > MOST_IMAGE {
        io::write_all(
            console.err,
            b"settings: IMAGE is longer than 1048576 bytes\n",
        );
        return;
    }
    act(
        system,
        &mut image[..n],
        path,
        layout,
        command,
        contents,
        console,
    );
}

fn on_image(
    system: &mut System,
    path: &[u8],
    layout: &[u8],
    command: Command,
    contents: &[u8],
    console: Console,
) {
    let mut image = [255u8; MOST_IMAGE + 1];
    work(system, &mut image, path, layout, command, contents, console);
}

// A command with the file of the layout read.
fn on_layout(
    system: &mut System,
    path: &[u8],
    layout_path: &[u8],
    command: Command,
    contents: &[u8],
    console: Console,
) {
    let mut text = [0u8; MOST_TEXT + 1];
    let Some(file) = qbx_images::present(system, &mut text, layout_path, 0, false) else {
        fail(system, console, b"read ", layout_path);
        return;
    };
    let n = file.count;
    if n > MOST_TEXT {
        io::write_all(console.err, b"settings: LAYOUT is longer than 4096 bytes\n");
        return;
    }
    let mut layout = [0u8; MOST_LAYOUT];
    let listing = settings_layout_file::read_layout(&text[..n], &mut layout);
    match listing {
        Ok(count) => on_image(system, path, &layout[..count], command, contents, console),
        Err(WrongLine(line)) => print(console.err, settings_says::say_wrong_line(line)),
    }
}

// A command on the image's file. What it says goes to the one descriptor, and what is wrong to the other, beside a read's answer
// and a list's refusal: their bytes go out alone. Neither the image's file nor the one that is written beside it, and given its
// name, may be the file of the layout: it would be gone.
pub fn obey(
    system: &mut System,
    path: &[u8],
    layout_path: &[u8],
    command: Command,
    contents: &[u8],
    console: Console,
) {
    let clash = qbx_same::clash_of(system, layout_path, path);
    if let Clash::IsSource = clash {
        io::write_all(console.err, b"settings: LAYOUT is IMAGE: name another\n");
        return;
    }
    if let Clash::SourceBeside = clash {
        io::write_all(
            console.err,
            b"settings: LAYOUT is the file that is written beside IMAGE: name another\n",
        );
        return;
    }
    on_layout(system, path, layout_path, command, contents, console);
}
