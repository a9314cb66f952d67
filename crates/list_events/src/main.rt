// Lists the events of a capture on standard input.
#![tactic(auto)]

fn main(rt: HostRuntime) {
    listing::run(&rt);
}
