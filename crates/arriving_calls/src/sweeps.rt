// One number after the other below 256 tried on a state or on bytes, and told in runs of what is found.
use arriving::Arriving;
use arriving_words::bursts;
use group::Refusal;
use heads::Head;
use judging::Fault;
use script_line::Line;

// 37: the byte as the next one; 38: the byte at an index of A's slice, all of which comes in bursts of a size; 39: the number as a word of the state.
fn tried(line: Line, state: Arriving, from: &mut [u8], byte: u8) -> Arriving {
    match line.operation {
        37 => state.after(&[byte]),
        38 => bursts::with_byte(from, line.own, byte, line.group.k),
        _ => arriving_words::with(state, line.own, usize::from(byte)),
    }
}

// What a state is judged to be; nothing where no bytes lead there, if it is judged 8 at 0 as it must be.
fn judged(state: Arriving) -> Option<Result<Head, Fault>> {
    let judgment = state.judge();
    let forged = judgment == Err(Fault::Malformed(Refusal::Kind, 0));
    if forged && !state.reached() {
        return None;
    }
    Some(judgment)
}

// All of them.
pub fn all(line: Line, state: Arriving, from: &mut [u8]) {
    lines::say(b" ");
    judged_words::sweep(|byte| judged(tried(line, state, from, byte)));
}
