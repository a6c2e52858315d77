// The night-desk examples P1 to P12 of document 01 (docs/SCHEME.md, 12) as one list, and that the rules give what each says. This crate is mathematics
// alone and has no function; the program `desk` runs the same examples.
#![tactic(auto)]
