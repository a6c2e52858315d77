// The records of a share that follow its head: their sizes, kinds and numbers, and which byte can stand in them.
#![tactic(auto)]

pub mod numbers;
pub mod ranges;
pub mod sizes;
