// Which segments that a table holds make an event.
#![tactic(auto)]

mod held;

pub use held::Held;
