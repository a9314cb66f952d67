// Compares packet::read with a second reader on many packets. It prints how many packets had each answer, and on how many the two
// readers differed; the file stdout has what must come.
#![tactic(auto)]

mod compare;
mod random;
mod reader;
mod sample;

fn main(rt: HostRuntime) {
    compare::run(rt.stdout());
}
