// What is written of a state.
use crate::words;
use arriving::{Arriving, Coming};
use judging::Fault;

// What is coming: 0, the head and the bytes of the whole share, or the refusal.
fn coming(coming: Result<Coming, Fault>) {
    match coming {
        Ok(share) => {
            judged_words::head(share.head);
            lines::number(b" bytes ", share.bytes);
        }
        Err(fault) => judged_words::fault(fault),
    }
}

// Whether some bytes lead to a state.
fn reached(reached: bool) {
    if reached {
        lines::say(b" reached");
    } else {
        lines::say(b" not reached");
    }
}

// What a state answers.
pub fn answers(state: Arriving) {
    reached(state.reached());
    lines::say(b" judged ");
    judged_words::tell(state.judge());
    lines::say(b" coming ");
    coming(state.coming());
    lines::number(b" good ", state.good_bytes());
}

// All of a state: its words, and what it answers.
pub fn state(state: Arriving) {
    script::numbers(b" state", &words::of(state));
    answers(state);
}
