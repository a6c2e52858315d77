// The code of previews: a node's packet, the pieces that k nodes send, and that they give back exactly one file. This crate is mathematics alone and has no
// function.
#![tactic(auto)]
