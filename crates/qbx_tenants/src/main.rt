// Two tenants on one chip, each with its share: what each may put, read and delete, what it is refused, and shares that are wrong.
// The commands are in stdin.
#![tactic(auto)]

fn main(rt: HostRuntime) {
    qbx_script::play(rt);
}
