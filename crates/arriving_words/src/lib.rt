// The reader of bursts for its test program: bytes handed over in bursts, the words of its state, and what is written of it.
#![tactic(auto)]

pub mod bursts;
mod telling;
mod words;

pub use telling::{answers, state};
pub use words::with;
