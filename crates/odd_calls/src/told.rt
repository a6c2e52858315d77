// What is written of a report: its number, a sign for each of the sixteen nodes, and the place of what is wrong.
use group::Refusal;
use odd_one::{Node, Report, Standing};

// The number of the refusal; 0 where there is none, as the table has it.
fn number(check: Result<(), Refusal>) -> usize {
    match check {
        Ok(()) => 0,
        Err(refusal) => group::refusal_number(refusal),
    }
}

// The sign of a node: absent, agreeing, unknown or odd.
fn sign(node: Node) {
    match node.standing {
        Standing::Absent => lines::say(b"."),
        Standing::Agreeing => lines::say(b"a"),
        Standing::Unknown => lines::say(b"?"),
        Standing::Odd(_) => lines::say(b"!"),
    }
}

// The place of an odd node; the others have none.
fn place(node: Node) {
    if let Standing::Odd(place) = node.standing {
        lines::number(b" at ", place);
    }
}

// The signs, node 1 first.
fn signs(nodes: &[Node]) {
    for node in nodes {
        sign(*node);
    }
}

// The places. Were two nodes odd, two would be seen.
fn places(nodes: &[Node]) {
    for node in nodes {
        place(*node);
    }
}

// All of it.
pub fn report(report: Report) {
    let nodes = report.nodes;
    lines::number(b": ", number(report.check));
    lines::say(b" ");
    signs(&nodes);
    places(&nodes);
}
