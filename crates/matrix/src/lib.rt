// The product of document 01 (docs/SCHEME.md, 3 to 8): the matrix, packets and pieces as definitions, their laws, and where the matrix's entries stand in a file.
#![tactic(auto)]

pub mod encoding;
pub mod entries;
pub mod senders;
