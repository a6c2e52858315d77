// Sums of several runs of one buffer, each from its own start. A block of the sum is put together in local memory, which the compiler keeps in registers.
#![tactic(auto)]

pub mod sources;

// The letters of a block. Where there are fewer, they are summed one by one.
pub const BLOCK: usize = adding::eights::WIDEST;
