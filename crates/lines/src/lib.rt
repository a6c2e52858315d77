// What the programs that run the calls have in common: words, numbers and letters on standard output, a number that stands for many letters,
// letters of a small generator, and parts of slices that are never too long.
#![tactic(auto)]

mod generator;
mod parts;
mod words;

pub use generator::scatter;
pub use parts::{byte, count, differ, line, part, part_mut, put, put_numbers, room};
pub use words::{checksum, decimal, letters, number, outcome, say, value};
