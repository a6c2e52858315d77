// A share's letters, written into its blocks and read out of them, behind a head of any size; and its end.
#![tactic(auto)]

mod blocks;
pub mod reading;
pub mod writing;
