// Sequences one after another, runs seen through a window and their sums, rows of shifts: what every edition of the code stands on.
#![tactic(auto)]

pub mod moved;
pub mod rows;
pub mod windows;
