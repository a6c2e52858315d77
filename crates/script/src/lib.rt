// Scripts: the tests are data that a program reads, and not code. A line of a script is some words and decimal numbers; the words
// are for the reader, and the numbers tell what is to be done (the crate `script_line` has them by name): an operation, on a slice of the memory
// A and one of the memory B. A is what the calls are lent as input, and B as output or to work in place. The operations below 10 are of the
// memories and are here; those of the calls are in libraries of their own, which `all_calls` has together. Each line is written again with what
// comes of it behind it; one without numbers is a heading.
#![tactic(auto)]

mod memory;
mod running;
mod telling;

pub use memory::{Parts, next};
pub use running::{of_one_part, run};
pub use telling::{answer, numbers, sum};
