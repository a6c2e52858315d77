// s shifted sums over s unknown sequences, for any letter and any shift rule: at most one solution, at least one, and what solving costs. This crate is
// mathematics alone and has no function.
#![tactic(auto)]
