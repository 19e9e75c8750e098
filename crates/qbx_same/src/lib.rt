// Whether a name leads to a certain file. A move or a rebuild writes its target under one name and gives it another;
// neither may be its source's, whatever the names look like.
#![tactic(auto)]

ghost use Rattle.std.specs.Prelude.{◌≡◌};
ghost use Rattle.qbx_same.specs.Same.{target_clash, beside_clash, clash_of};

use qbx_system::{ENOENT, System};
use std::fs::File;
use std::os::unix::fs::MetadataExt;

// The bits of a mode that tell a file's kind, and the kind of a plain file.
const S_IFMT: u32 = 0o170000;

const S_IFREG: u32 = 0o100000;

// What tells a file from every other one while it is open: its device and its number there. Beside them its kind.
#[derive(Clone, Copy)]
#[derive_where(PartialEq, Eq)]
pub struct Identity {
    pub device: u64,
    pub number: u64,
    #[derive_where(skip)]
    pub kind: u32,
}

// What a name leads to.
// Kept: its three cases are as plain as they can be; `Result<Option<Identity>, Untold>` would name two types in each match.
#[derive(Clone, Copy)]
pub enum Found {
    File(Identity),
    Nothing,
    Untold,
}

// Whether the source stays as it is if the target is written: its own file, or that beside it, is the source, or something
// else than a plain file is in the way; or a name could not be looked at, and the system's reason stays to be told.
#[derive(Clone, Copy)]
pub enum Clash {
    Apart,
    IsSource,
    SourceBeside,
    InTheWay,
    NoSource,
    NoTarget,
    NoBeside,
}

// ---- what the system tells: nothing is promised of it

fn identify(system: &mut System, file: &File) -> Option<Identity> {
    let status = system.status(file)?;
    let kind = status.mode() & S_IFMT;
    if kind == 0 {
        return None;
    }
    Some(Identity {
        device: status.dev(),
        number: status.ino(),
        kind,
    })
}

// What a name leads to, through links too.
fn look(system: &mut System, path: &[u8]) -> Found {
    let Some(file) = system.open_read(path) else {
        if system.reason() == ENOENT {
            return Found::Nothing;
        }
        return Found::Untold;
    };
    match identify(system, &file) {
        Some(found) => Found::File(found),
        None => Found::Untold,
    }
}

// ---- what follows from it

// The name beside the target's: what has it is removed. A link to a folder could be on the way to the source.
#[tactic(auto, unfolding(crate::specs::Same::beside_clash, crate::specs::Same::is_plain))]
fn with_beside(source: Identity, beside: Found) -> Clash
    ensures { result ≡ beside_clash source beside }
{
    match beside {
        Found::Nothing => Clash::Apart,
        Found::Untold => Clash::NoBeside,
        Found::File(file) if source == file => Clash::SourceBeside,
        Found::File(file) if file.kind == S_IFREG => Clash::Apart,
        Found::File(_) => Clash::InTheWay,
    }
}

// The target's own name: the file that has it is replaced. Where it is no clash, there may be one beside it.
#[tactic(auto, unfolding(crate::specs::Same::target_clash))]
fn with_target(source: Identity, target: Found, beside: Clash) -> Clash
    ensures { result ≡ target_clash source target beside }
{
    match target {
        Found::Nothing => beside,
        Found::Untold => Clash::NoTarget,
        Found::File(file) if source == file => Clash::IsSource,
        Found::File(_) => beside,
    }
}

fn judge(source: Identity, target: Found, beside: Found) -> Clash
    ensures { result ≡ clash_of source target beside }
{
    with_target(source, target, with_beside(source, beside))
}

// ---- the names

// The name beside the target's is looked at only if its own could be, or the system would tell its reason of the other one.
fn against(system: &mut System, source: Identity, target: &[u8]) -> Clash {
    let own = look(system, target);
    if let Found::Untold = own {
        return Clash::NoTarget;
    }
    let mut name = io::buffer();
    let n = qbx_files::beside(target, &mut name);
    judge(source, own, look(system, &name[..n]))
}

// Whether the target can be written without a change to the source. The source stays open until that is known: the system may
// give the number of a closed file to another one.
pub fn clash_of(system: &mut System, path: &[u8], target: &[u8]) -> Clash {
    let Some(file) = system.open_read(path) else {
        return Clash::NoSource;
    };
    let Some(source) = identify(system, &file) else {
        return Clash::NoSource;
    };
    against(system, source, target)
}
