// What a node of previews holds: its packet of a file.
#![tactic(auto)]

pub mod encoding;
mod laying;
