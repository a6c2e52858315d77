// Whether nodes agree: what it means that all do, that one alone is odd, that more than one is wrong, and that it is always exactly one of these. This crate is
// mathematics alone and has no function.
#![tactic(auto)]
