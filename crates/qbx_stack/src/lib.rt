// How much stack the process may use.
#![tactic(auto)]

use qbx_system::System;

// The soft limit that a line of the process's limits tells, in bytes; 0 where it tells none.
fn limit_in(line: &str) -> u64 {
    match line.split_whitespace().next() {
        Some("unlimited") => u64::MAX,
        Some(word) => word.parse::<u64>().unwrap_or(0),
        None => 0,
    }
}

// The line of the stack, in the text of the process's limits.
fn limit_of_stack(text: &str) -> u64 {
    for line in text.lines() {
        if let Some(rest) = line.strip_prefix("Max stack size") {
            return limit_in(rest);
        }
    }
    0
}

// The soft limit in bytes. It is the system's word, so nothing is promised of it. No limit is the largest number, and where it cannot
// be read, it is 0.
// Kept: a limit that cannot be read allows nothing, which 0 says to every caller; an `Option` would be taken for 0 by each of them.
pub fn allowed(system: &mut System) -> u64 {
    let Some(mut file) = system.open_read(b"/proc/self/limits") else {
        return 0;
    };
    let mut limits = [0u8; 4096];
    let (Ok(n) | Err(n)) = qbx_files::fill(system, &mut file, &mut limits);
    match str::from_utf8(&limits[..n]) {
        Ok(text) => limit_of_stack(text),
        Err(_) => 0,
    }
}
