// The lines of standard output: how the node of each file stands, and the answer in the last one. tools/programs.sh gives the exit status by that; where a line
// can't be written it sees no answer.
use crate::places::Place;
use odd_problems::saying::Name;
use std::fmt::Display;
use std::rt::Env;

// A line on a file and its node: `a.share: node 6`, and how that stands.
fn line_on(rt: &(impl Env + Print), nth: usize, node: usize, words: impl Display + Drop) {
    let _ = println!(rt; "{}: node {node}{words}", Name(rt, nth));
}

pub fn agrees(rt: &(impl Env + Print), nth: usize, node: usize) {
    line_on(rt, nth, node, " agrees");
}

pub fn unknown(rt: &(impl Env + Print), nth: usize, node: usize) {
    line_on(rt, nth, node, ": can't be told");
}

// Where the first wrong letter stands.
pub fn odd(rt: &(impl Env + Print), nth: usize, node: usize, place: Place) {
    let Place {
        packet,
        letter,
        index,
    } = place;
    line_on(
        rt,
        nth,
        node,
        format_args!(
            " is odd: its first wrong letter is letter {letter} of packet {packet}, at index {index}, from 0, of this file"
        ),
    );
}

// The last line.
pub fn all_agree(rt: &impl Print, nodes: usize) {
    let _ = println!(rt; "all {nodes} nodes agree");
}

pub fn one_is_odd(rt: &impl Print, node: usize, nodes: usize) {
    let others = nodes.saturating_sub(1);
    let _ = println!(rt; "node {node} alone is odd: the {others} others agree");
}

pub fn several_are_wrong(rt: &impl Print) {
    let _ = println!(rt; "more than one node is wrong: nothing can be said of any of them");
}
