// What a helper sends for a lost node: one piece, summed from its packets.
#![tactic(auto)]

pub mod helping;
