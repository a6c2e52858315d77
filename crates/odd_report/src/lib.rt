// Which node is lying: the report, how each of sixteen nodes stands.
#![tactic(auto)]

pub mod reporting;

use group::Refusal;

// How a node stands beside the others that are present.
#[derive(Clone, Copy, PartialEq, Eq)]
pub enum Standing {
    // It isn't present, or the call is refused.
    Absent,
    // It holds its packets of the file that all share, or all but the odd one.
    Agreeing,
    // More than one is wrong, so nothing can be said of any.
    Unknown,
    // It alone is wrong. The place of its first wrong letter, from 1 through all its packets, against the file that the others share.
    Odd(usize),
}

// What the report says of one node.
#[derive(Clone, Copy, PartialEq, Eq)]
pub struct Node {
    pub standing: Standing,
}

// What comes back: whether the call is refused, and how each of sixteen nodes stands, node i at index i - 1.
#[derive(Clone, Copy, PartialEq, Eq)]
pub struct Report {
    pub check: Result<(), Refusal>,
    pub nodes: [Node; 16],
}
