// qbx IMAGE N B VERB [BLOCK] [--budget STEPS]: one request on a record store whose image is a file. With the verb move or rebuild
// TARGET and its N and B follow: the records, or what can be salvaged of them, are carried to another image. With share-put,
// share-get or share-delete a file of shares, a tenant and a block follow: the block is put, read or deleted for the tenant.
#![tactic(auto)]

ghost use Rattle.std.specs.Prelude.{◌≤◌, length, IfSome};

use qbx_out::{Console, Program};
use qbx_share_words::{ShareCommand, ShareVerb};
use qbx_system::{STDERR_FILENO, STDOUT_FILENO, System};
use qbx_verbs::Verb;
use qbx_words::Command;

// How a command is written.
fn show_forms(fd: i32) {
    io::write_all(
        fd,
        b"qbx: a record store on NOR flash, whose image is a file\n\n  qbx IMAGE N B VERB [BLOCK] [--budget STEPS]\n  qbx IMAGE N B move TARGET N B [--budget STEPS]\n  qbx IMAGE N B rebuild TARGET N B [--budget STEPS]\n",
    );
    io::write_all(
        fd,
        b"  qbx IMAGE N B share-put SHARES TENANT BLOCK\n  qbx IMAGE N B share-get SHARES TENANT BLOCK\n  qbx IMAGE N B share-delete SHARES TENANT BLOCK\n\n",
    );
    io::write_all(
        fd,
        b"IMAGE is the file, of N segments (2 to 255) with B slots each (2 to 255).\nOne above 4 MiB needs a stack of 24576 KiB, for account, map and salvage 26624, for move and rebuild 39936: ./qbx raises the limit where it may.\n\n",
    );
}

fn show_verbs(fd: i32) {
    io::write_all(
        fd,
        b"  format         erases all and starts an empty store; makes the file if there is none\n  put BLOCK      stores standard input, 1 to 248 bytes, under a number from 1 to 65534\n  get BLOCK      writes the contents to standard output, and the answer to standard error\n",
    );
    io::write_all(
        fd,
        b"  delete BLOCK   forgets the block\n  recover        mends what a power cut left unfinished\n  check          says the state of the image, the segments in use, their slots, version and tally\n",
    );
    io::write_all(
        fd,
        b"  account        lists the segments and the blocks, and what recover would do or the condition that fails\n  map            draws the segments, one character for each slot\n  salvage        lists of each block, in a damaged image too, the one in the highest segment number, and whether others differ\n",
    );
    io::write_all(
        fd,
        b"  move TARGET    carries all blocks to a fresh image of its own N and B, in the file TARGET; makes it if there is none\n  rebuild TARGET the same from what salvage lists, whatever state IMAGE is in\n",
    );
    io::write_all(
        fd,
        b"  share-put      put for a tenant: a block of its own range, and a new one only while its quota is not used\n  share-get      get for a tenant\n  share-delete   delete for a tenant\n\n",
    );
}

fn show_rules(fd: i32) {
    io::write_all(
        fd,
        b"--budget STEPS stops a verb that writes, but for a tenant's, after so many flash steps, as a power cut would.\nThe answer is said with its number and the steps done; account, map and salvage write their text alone.\nThe file is replaced whole or not at all.\nMove and rebuild only read IMAGE; one that was cut is begun again, whatever its target looks like.\nSalvage promises nothing: which contents of a damaged image were acknowledged it can't tell.\n",
    );
    io::write_all(
        fd,
        b"The version is the newest header's; the tally, in version 2, how many erases recoveries set about.\nWith no bit left none more is counted, and a put that needs a new header answers 8.\nOn version 1 put answers 11, and the other verbs do their work; format, move and rebuild write version 2.\n",
    );
    io::write_all(
        fd,
        b"SHARES is a file of up to 4096 bytes, three numbers to a line: a tenant's first block, last block and quota. Tenants are numbered from 1, line by line.\nMore than 40 of them, ranges that overlap or are none, and quotas that add up to more than (N-1)B-1 answer 13; a block that is not the tenant's answers 12, and so does a tenant that is not there.\nA tenant is told no steps: their count shows the tidying for others.\n",
    );
}

fn usage(fd: i32) {
    show_forms(fd);
    show_verbs(fd);
    show_rules(fd);
}

// The contents to put are on standard input. A byte more than fits is read, so that too many are seen.
fn read_contents(system: &mut System, contents: &mut [u8]) -> Option<usize>
    ensures { IfSome result (λ n. n ≤ length contents.new) }
{
    let mut input = system.stdin();
    let Ok(n) = qbx_files::fill(system, &mut input, contents) else {
        io::write_all(STDERR_FILENO, b"qbx: cannot read standard input\n");
        return None;
    };
    Some(n)
}

fn put(system: &mut System, path: &[u8], command: Command) {
    let mut contents = [0u8; 249];
    let Some(n) = read_contents(system, &mut contents) else {
        return;
    };
    qbx_buffers::obey(
        system,
        path,
        command,
        &contents[..n],
        Console::apart(Program::Qbx),
    );
}

fn obey(system: &mut System, path: &[u8], command: Command) {
    if let Verb::Put = command.verb {
        put(system, path, command);
    } else {
        qbx_buffers::obey(system, path, command, b"", Console::apart(Program::Qbx));
    }
}

fn read_words(system: &mut System, path: &[u8]) {
    let reading = qbx_words::command_of(
        system.word(2, &mut [0u8; 64]),
        system.word(3, &mut [0u8; 64]),
        system.word(4, &mut [0u8; 64]),
        system.word(5, &mut [0u8; 64]),
        system.word(6, &mut [0u8; 64]),
        system.word(7, &mut [0u8; 64]),
    );
    match reading {
        Ok(command) => obey(system, path, command),
        Err(complaint) => qbx_out::complain(complaint, STDERR_FILENO),
    }
}

// The words of a move or a rebuild.
fn read_move(system: &mut System, path: &[u8], verb: &[u8], target: &[u8]) {
    let reading = qbx_move_words::move_of(
        system.word(2, &mut [0u8; 64]),
        system.word(3, &mut [0u8; 64]),
        verb,
        target,
        system.word(6, &mut [0u8; 64]),
        system.word(7, &mut [0u8; 64]),
        system.word(8, &mut [0u8; 64]),
        system.word(9, &mut [0u8; 64]),
    );
    match reading {
        Ok(command) => {
            qbx_move_buffers::obey(system, path, target, command, Console::apart(Program::Qbx));
        }
        Err(complaint) => qbx_out::complain(complaint, STDERR_FILENO),
    }
}

fn share_put(system: &mut System, path: &[u8], shares: &[u8], command: ShareCommand) {
    let mut contents = [0u8; 249];
    let Some(n) = read_contents(system, &mut contents) else {
        return;
    };
    qbx_share_buffers::obey(
        system,
        path,
        shares,
        command,
        &contents[..n],
        Console::apart(Program::Qbx),
    );
}

fn share(system: &mut System, path: &[u8], shares: &[u8], command: ShareCommand) {
    if let ShareVerb::Put = command.verb {
        share_put(system, path, shares, command);
    } else {
        qbx_share_buffers::obey(
            system,
            path,
            shares,
            command,
            b"",
            Console::apart(Program::Qbx),
        );
    }
}

// The words of a tenant's command.
fn read_share(system: &mut System, path: &[u8], verb: &[u8], shares: &[u8]) {
    let reading = qbx_share_words::share_of(
        system.word(2, &mut [0u8; 64]),
        system.word(3, &mut [0u8; 64]),
        verb,
        shares,
        system.word(6, &mut [0u8; 64]),
        system.word(7, &mut [0u8; 64]),
    );
    match reading {
        Ok(command) => share(system, path, shares, command),
        Err(complaint) => qbx_out::complain(complaint, STDERR_FILENO),
    }
}

// A command by its verb. A path follows some: a move's and a rebuild's, which have more words than any other, and a tenant's.
fn read(system: &mut System, path: &[u8], words: usize) {
    let mut verb = [0u8; 64];
    let verb = system.word(4, &mut verb);
    if qbx_move_words::names_target(verb) {
        if words > 10 {
            usage(STDERR_FILENO);
            return;
        }
        let mut target = io::buffer();
        let m = system.arg(5, &mut target);
        read_move(system, path, verb, &target[..m]);
        return;
    }
    if qbx_share_words::share_verb_of(verb).is_some() {
        if words > 8 {
            io::write_all(
                STDERR_FILENO,
                b"qbx: nothing may follow BLOCK here, as --budget: a tenant is told no steps\n",
            );
            return;
        }
        let mut shares = io::buffer();
        let m = system.arg(5, &mut shares);
        read_share(system, path, verb, &shares[..m]);
        return;
    }
    if words > 8 {
        usage(STDERR_FILENO);
        return;
    }
    read_words(system, path);
}

fn main(rt: HostRuntime) {
    let mut system = System::new(rt);
    let mut path = io::buffer();
    let n = system.arg(1, &mut path);
    if qbx_words::is(&path[..n], b"--help") {
        usage(STDOUT_FILENO);
        return;
    }
    if n == 0 {
        usage(STDERR_FILENO);
        return;
    }
    if system.arg_count() < 5 {
        usage(STDERR_FILENO);
        return;
    }
    let words = system.arg_count();
    read(&mut system, &path[..n], words);
}
