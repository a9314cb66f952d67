// The blocks of a redundant packet (RFC 2198), one after another.
#![tactic(auto)]

pub mod step;
