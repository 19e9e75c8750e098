// Plays a script of commands, one to a line, each as a program would obey it. All that is said goes to standard output, so that a whole
// story is one output to compare.
#![tactic(auto)]

use qbx_system::{STDOUT_FILENO, System};

// The words of a command, behind a prompt that ends in the program's name, and what stands behind '<'.
fn step<F: Fn(&mut System, &[u8], &[u8])>(system: &mut System, prompt: &[u8], line: &[u8], obey: &F)
    requires { F.IsAlwaysCallable obey.now }
{
    io::write_all(STDOUT_FILENO, prompt);
    io::write_all(STDOUT_FILENO, line);
    io::write_all(STDOUT_FILENO, b"\n");
    let end = byte_search::find(line, 0, line.len(), b'<');
    if line.len() - end < 2 {
        obey(system, line, b"");
        return;
    }
    let start = end + 2;
    obey(system, &line[..end], &line[start..]);
}

// The script is on standard input. One that cannot be read to its end is played as far as it was.
pub fn play<F: Fn(&mut System, &[u8], &[u8])>(rt: HostRuntime, prompt: &[u8], obey: F)
    requires { F.IsAlwaysCallable obey }
{
    let mut system = System::new(rt);
    let mut script = io::large_buffer();
    let mut input = system.stdin();
    let (Ok(n) | Err(n)) = qbx_files::fill(&mut system, &mut input, &mut script);
    for line in script[..n].split_inclusive(|b| *b == b'\n') {
        let line = line.strip_suffix(b"\n").unwrap_or(line);
        step(&mut system, prompt, line, &obey);
    }
}
