// A board's life: its first write, one in place, one to the next partition, cuts before the status and inside the items with reads
// behind them, and the ring of partitions and statuses gone round. The commands are in stdin.
#![tactic(auto)]

fn main(rt: HostRuntime) {
    settings_script::play(rt);
}
