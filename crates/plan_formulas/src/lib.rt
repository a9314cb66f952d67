// The sender's plan for one event by formula, with no list: the formulas stand in specs/, and what they say of the model's lists in proofs/.
#![tactic(auto)]

// Where a report stands: its segment, and its place among that segment's reports. Both count from 0.
#[derive(Clone, Copy)]
pub struct Place {
    pub segment: u32,
    pub index: u32,
}
