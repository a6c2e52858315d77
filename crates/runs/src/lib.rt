// Runs of one buffer: letters added to later ones of it (`adding_after`), and running sums, which undo the addition of a run, moved, to itself (`dividing`).
#![tactic(auto)]

pub use adding_after::add_after;
pub use dividing::{SHORT, STEP, divide};
