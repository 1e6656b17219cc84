// The passes over a symbol whose tables are planned, each way: frame, labels by place, points.
#![tactic(auto)]

pub mod read;
pub mod write;
