// The text of recorded cases: its numbers read into buffers, or compared with some.
#![tactic(auto)]

pub mod lines;
pub mod text;
