// What a node sends for a recovery: its pieces, and where the collector puts them.
#![tactic(auto)]

pub mod pieces;
