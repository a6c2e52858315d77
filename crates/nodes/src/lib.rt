// What a node holds: its packets of a file.
#![tactic(auto)]

pub mod encoding;
