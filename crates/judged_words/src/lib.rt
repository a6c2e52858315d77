// Judgments as the test programs write them: the number in the table of documents 01 and 02 (docs/SCHEME.md, 11), 0 for a share, and with
// 8 to 12 the index of the first byte that can't stand, as `9 at 4`.
#![tactic(auto)]

mod runs;

use heads::Head;
use judging::Fault;
pub use runs::{Run, sweep};

// The number.
pub fn number(judgment: Result<Head, Fault>) -> usize {
    match judgment {
        Ok(_) => 0,
        Err(fault) => fault.number(),
    }
}

// The place; 0 where there is none, as scripts and texts ask for it.
pub fn place(judgment: Result<Head, Fault>) -> usize {
    match judgment {
        Err(Fault::Malformed(_, at)) => at,
        _ => 0,
    }
}

// Writes the number of what is wrong, and its place.
pub fn fault(fault: Fault) {
    lines::decimal(fault.number());
    if let Fault::Malformed(_, at) = fault {
        lines::number(b" at ", at);
    }
}

// Writes 0 and a head: n, k, d, node, L, batch, kind.
pub fn head(head: Head) {
    let g = head.group;
    script::numbers(
        b"0 of",
        &[
            g.n,
            g.k,
            g.d,
            head.node,
            g.l,
            head.batch as usize,
            head.kind,
        ],
    );
}

// Writes a judgment: a share's with its head.
pub fn tell(judgment: Result<Head, Fault>) {
    match judgment {
        Ok(own) => head(own),
        Err(fault) => self::fault(fault),
    }
}

// Writes a judgment's number as one digit: 10 to 12 are a to c.
pub fn digit(judgment: Result<Head, Fault>) {
    match number(judgment) {
        10 => lines::say(b"a"),
        11 => lines::say(b"b"),
        12 => lines::say(b"c"),
        n => lines::decimal(n),
    }
}
