// A file of previews from the pieces of k nodes.
#![tactic(auto)]

pub mod recovery;
