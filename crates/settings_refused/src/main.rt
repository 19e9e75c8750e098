// Commands that are wrong or refused, each with what is said of it, and files of layouts that are none; the boards stay as they
// were. The commands are in stdin.
#![tactic(auto)]

fn main(rt: HostRuntime) {
    settings_script::play(rt);
}
