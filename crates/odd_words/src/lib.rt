// What the program `odd` answers: of each file how its node stands, and in the last line of all of them. Each text is written by a function that does little
// else: what is proved of a literal grows with all that is at hand beside it.
#![tactic(auto)]

mod answers;
mod places;
mod telling;

pub use telling::tell;
