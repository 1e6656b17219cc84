// The loops over a symbol's tones, by its plan. Everything meets at the labels by place in t': `write` makes them from a frame and `points`
// makes points of them; `read` makes them from points and a frame from them. Where the trellis code is used, it stands between the frame
// and the labels.
#![tactic(auto)]

pub mod points;
pub mod read;
pub mod write;
