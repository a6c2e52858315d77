// What a node of previews sends: its piece, and where the collector puts it.
#![tactic(auto)]

pub mod pieces;
