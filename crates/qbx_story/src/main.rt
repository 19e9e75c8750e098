// A store from its format on: puts, a rewrite that compacts, power cuts in it, recoveries and reads. The commands are in stdin.
#![tactic(auto)]

fn main(rt: HostRuntime) {
    qbx_script::play(rt);
}
