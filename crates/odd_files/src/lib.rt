// The files that the program `odd` is given: their bytes, which of them are shares of one batch, and which node's share is in which.
#![tactic(auto)]

pub mod batch;
pub mod input;
pub mod looking;
