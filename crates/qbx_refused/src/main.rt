// Commands that are wrong or refused, each with what is said of it; the image stays as it was. The commands are in stdin.
#![tactic(auto)]

fn main(rt: HostRuntime) {
    qbx_script::play(rt);
}
