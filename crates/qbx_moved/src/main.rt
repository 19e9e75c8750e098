// A board of version 1 moved to chips of other sizes: what stays, moves that are cut and begun again, and moves that are refused.
// The commands are in stdin.
#![tactic(auto)]

fn main(rt: HostRuntime) {
    qbx_script::play(rt);
}
