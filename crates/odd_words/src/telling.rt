// What the library's call found, in words: a line for each file, in the order of the arguments, and the answer.
use crate::{answers, places};
use heads::Head;
use odd_files::batch::Batch;
use odd_files::input;
use odd_one::{Report, Standing};
use odd_problems::Problem;
use std::rt::Env;

// What the lines so far come to.
#[derive(Clone, Copy)]
enum Outcome {
    AllAgree,
    OneIsOdd(usize),
    SeveralAreWrong,
}

// How a node stands. Nodes count from 1, so that 0 has no place.
fn standing_of(report: &Report, node: usize) -> Standing {
    match report.nodes.get(node.wrapping_sub(1)) {
        Some(found) => found.standing,
        None => Standing::Absent,
    }
}

// The line of a file, whose share has this head.
fn tell_file(
    rt: &(impl Env + Print),
    outcome: Outcome,
    nth: usize,
    head: Head,
    standing: Standing,
) -> Outcome {
    match standing {
        Standing::Absent => outcome,
        Standing::Agreeing => {
            answers::agrees(rt, nth, head.node);
            outcome
        }
        Standing::Unknown => {
            answers::unknown(rt, nth, head.node);
            Outcome::SeveralAreWrong
        }
        Standing::Odd(place) => {
            answers::odd(rt, nth, head.node, places::of(head, place));
            Outcome::OneIsOdd(head.node)
        }
    }
}

// The lines of all files.
fn tell_files(rt: &(impl Env + Print), batch: &Batch, report: &Report) -> Outcome {
    let mut outcome = Outcome::AllAgree;
    for nth in 1..input::arg_count(rt) {
        if let Some(node) = batch.node_in(nth) {
            let own = batch.head_of(node);
            outcome = tell_file(rt, outcome, nth, own, standing_of(report, node));
        }
    }
    outcome
}

// The last line.
fn tell_outcome(rt: &impl Print, outcome: Outcome, nodes: usize) {
    match outcome {
        Outcome::AllAgree => answers::all_agree(rt, nodes),
        Outcome::OneIsOdd(node) => answers::one_is_odd(rt, node, nodes),
        Outcome::SeveralAreWrong => answers::several_are_wrong(rt),
    }
}

// All lines. Where the call refuses there are none.
pub fn tell(rt: &(impl Env + Print), batch: &Batch, report: &Report) -> Result<(), Problem> {
    report.check?;
    let outcome = tell_files(rt, batch, report);
    tell_outcome(rt, outcome, batch.nodes());
    Ok(())
}
