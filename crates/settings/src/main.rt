// settings IMAGE P LAYOUT read ITEM, write ITEM [--budget STEPS], or list: one request on a board with the older partition
// format (request #109), whose image is a file.
#![tactic(auto)]

use qbx_out::{Console, Program};
use qbx_system::{STDERR_FILENO, STDOUT_FILENO, System};
use settings_words::{Command, Verb};

// How a command is written.
fn show_forms(fd: i32) {
    io::write_all(
        fd,
        b"settings: items on a board with the older partition format, whose image is a file\n\n  settings IMAGE P LAYOUT read ITEM\n  settings IMAGE P LAYOUT write ITEM [--budget STEPS]\n  settings IMAGE P LAYOUT list\n\n",
    );
    io::write_all(
        fd,
        b"IMAGE is the file, of up to 1048576 bytes: P partitions of equal size, P a power of two from 2 to 128.\nA fresh board is a file of bytes 255: head -c 4096 /dev/zero | tr '\\0' '\\377' > settings.bin\n",
    );
    io::write_all(
        fd,
        b"LAYOUT is a text file of up to 4096 bytes, two numbers to a line: identifier and length of an item, in the order of the items.\nIdentifiers are 0 to 254, none twice, lengths 1 to 255, and a status byte and the items with their identifiers fit a partition.\nGive the same P and LAYOUT each time: neither is in the image. A write by another layout drops what that one does not name,\nand one by another P ruins the board.\n\n",
    );
}

fn show_verbs(fd: i32) {
    io::write_all(
        fd,
        b"  read ITEM    writes the item's data to standard output, and the answer to standard error\n  write ITEM   stores standard input, which has the item's length; the file is replaced whole or not at all\n  list         says the newest partition and its status, and of each item its length, its offset and its data\n\n",
    );
}

fn show_rules(fd: i32) {
    io::write_all(
        fd,
        b"--budget STEPS stops a write after so many flash steps, as a power cut would.\nThe answer is said with its number: 0 done; 1 P, or an image that it does not divide; 2 a layout that breaks the rules;\n3 an item that is not in it, or data of another length; 4 statuses that are no single run; 5 an item that is not written; 9 cut.\nThat is the exit status of ./settings, with 64 for wrong usage or a file that cannot be read or written, and 70 if the program was not built or was killed.\n",
    );
}

fn usage(fd: i32) {
    show_forms(fd);
    show_verbs(fd);
    show_rules(fd);
}

// The data to write are on standard input. A byte more than an item has is read, so that too many are seen.
fn write(system: &mut System, path: &[u8], layout: &[u8], command: Command) {
    let mut contents = [0u8; 256];
    let mut input = system.stdin();
    let Ok(n) = qbx_files::fill(system, &mut input, &mut contents) else {
        io::write_all(STDERR_FILENO, b"settings: cannot read standard input\n");
        return;
    };
    settings_work::obey(
        system,
        path,
        layout,
        command,
        &contents[..n],
        Console::apart(Program::Settings),
    );
}

fn obey(system: &mut System, path: &[u8], layout: &[u8], command: Command) {
    if let Verb::Write = command.verb {
        write(system, path, layout, command);
    } else {
        settings_work::obey(
            system,
            path,
            layout,
            command,
            b"",
            Console::apart(Program::Settings),
        );
    }
}

fn read_words(system: &mut System, path: &[u8], layout: &[u8]) {
    let reading = settings_words::command_of(
        system.word(2, &mut [0u8; 64]),
        layout,
        system.word(4, &mut [0u8; 64]),
        system.word(5, &mut [0u8; 64]),
        system.word(6, &mut [0u8; 64]),
        system.word(7, &mut [0u8; 64]),
    );
    match reading {
        Ok(command) => obey(system, path, layout, command),
        Err(complaint) => settings_work::complain(complaint, STDERR_FILENO),
    }
}

// A command of five to eight words, its own name among them.
fn read(system: &mut System, path: &[u8], words: usize) {
    if words < 5 {
        usage(STDERR_FILENO);
        return;
    }
    if words > 8 {
        usage(STDERR_FILENO);
        return;
    }
    let mut layout = io::buffer();
    let n = system.arg(3, &mut layout);
    read_words(system, path, &layout[..n]);
}

fn main(rt: HostRuntime) {
    let mut system = System::new(rt);
    let mut path = io::buffer();
    let n = system.arg(1, &mut path);
    if qbx_words::is(&path[..n], b"--help") {
        usage(STDOUT_FILENO);
        return;
    }
    if n == 0 {
        usage(STDERR_FILENO);
        return;
    }
    let words = system.arg_count();
    read(&mut system, &path[..n], words);
}
