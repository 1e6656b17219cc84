// Driving one symbol: its points with their gain on, as 32-bit floats, and their peak.
#![tactic(auto)]

mod blocks;
mod numbers;
mod peaks;
