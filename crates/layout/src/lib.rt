// The format of the network image: its numbers as bytes, and the functions that store them.
#![tactic(auto)]

pub mod bytes;
pub mod put;
