// A lost node from the pieces of d helpers.
#![tactic(auto)]

pub mod repairing;
