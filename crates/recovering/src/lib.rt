// The file from the pieces of k nodes: the call.
#![tactic(auto)]

pub mod recovery;
