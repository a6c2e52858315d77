// The letters of a batch's shares in the files that the program `odd` is given: whether they can be compared, and where the library's call wants them.
#![tactic(auto)]

pub mod fitting;
pub mod gathering;
