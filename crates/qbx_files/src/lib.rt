// A file read, and replaced whole or not at all.
#![tactic(auto)]

ghost use Rattle.std.specs.Prelude.{◌≡◌, ◌≤◌, length, take, MatchResult};
ghost use Rattle.io.specs.Counts.{IsPrefixLen};
ghost use Rattle.qbx_files.specs.Files.{beside_of, larger_of};

use qbx_system::System;
use std::fs::File;
use std::io::{Read, Seek, SeekFrom};

// Reads until the buffer is full or the input ends: how many bytes. A failure is told from the end, with those read before it, and the
// system's reason stays to be told.
pub fn fill<R: Read>(system: &mut System, source: &mut R, buf: &mut [u8]) -> Result<usize, usize>
    ensures { MatchResult result (λ n. n ≤ length buf.new) (λ n. n ≤ length buf.new) }
{
    let mut at = 0;
    // Kept: each turn goes on by as many bytes as the system gave, which no range or iterator tells.
    while at < buf.len() {
        match source.read(&mut buf[at..]) {
            Ok(0) => break,
            Ok(count) => at += count,
            Err(error) => {
                system.take(error);
                return Err(at);
            }
        }
    }
    Ok(at)
}

// The larger of an offset in a file and a count of its bytes.
fn larger(offset: i64, count: u64) -> u64
    ensures { result ≡ larger_of offset count }
{
    match u64::try_from(offset) {
        Ok(length) => length.max(count),
        Err(_) => count,
    }
}

// How many bytes a file has, where the system tells its end; those that were read, where it does not.
pub fn length_of(file: &mut File, read: usize) -> u64
    ensures { read ≤ result }
{
    match file.seek(SeekFrom::End(0)) {
        Ok(end) => larger(end.cast_signed(), read as u64),
        Err(_) => read as u64,
    }
}

// The name beside a path, for the file that is to take its place: how many bytes, 0 if it is too long.
// Kept: no name is an empty one to every caller, and the system tells why it has none; an `Option` would be taken for 0 by each.
pub fn beside(path: &[u8], name: &mut [u8]) -> usize
    ensures prefix_len { IsPrefixLen result name.new }
    ensures name_after { take result name.new ≡ beside_of (length name.old) path.now }
{
    if name.len() < path.len() {
        return 0;
    }
    let n = path.len();
    if name.len() - n < 4 {
        return 0;
    }
    name[..n].copy_from_slice(path);
    let end = n + 4;
    name[n..end].copy_from_slice(b".new");
    end
}

// Writes a whole file, has it on the disk and closes it. Whether that went well is the system's word, of which nothing is proved.
fn write_out(system: &mut System, mut file: File, bytes: &[u8]) -> bool {
    system.write_file(&mut file, bytes)
}

// Replaces a file whole or not at all: its successor is written beside it and takes its name. Whether it did is the
// system's word too.
pub fn replace(system: &mut System, path: &[u8], bytes: &[u8]) -> bool {
    let mut name = io::buffer();
    let n = beside(path, &mut name);
    system.remove(&name[..n]);
    let Some(file) = system.create(&name[..n]) else {
        return false;
    };
    if !write_out(system, file, bytes) {
        system.remove(&name[..n]);
        return false;
    }
    if system.rename(&name[..n], path) {
        return true;
    }
    system.remove(&name[..n]);
    false
}
