// The nine words of a state, by their numbers 0 to 8: a caller in C holds them as bare memory, so each can be anything. The numbers are the scripts' own
// (docs/SCRIPTS.md), and the words are fields: so they are matched one by one.
use arriving::Arriving;

// All of them.
pub fn of(state: Arriving) -> [usize; 9] {
    [
        state.at,
        state.wrong,
        state.n,
        state.k,
        state.d,
        state.node,
        state.l,
        state.batch,
        state.kind,
    ]
}

// The state with another number as word `i`.
pub fn with(state: Arriving, i: usize, number: usize) -> Arriving {
    let mut other = state;
    match i {
        0 => other.at = number,
        1 => other.wrong = number,
        2 => other.n = number,
        3 => other.k = number,
        4 => other.d = number,
        5 => other.node = number,
        6 => other.l = number,
        7 => other.batch = number,
        _ => other.kind = number,
    }
    other
}
