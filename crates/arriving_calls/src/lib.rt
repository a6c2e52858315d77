// What a line of a script does with the state of the reader of bursts, by its number (docs/SCRIPTS.md).
#![tactic(auto)]

mod sweeps;

use arriving::Arriving;
use arriving_words::bursts;
use script_line::Line;

// The state with another word: the line has the word's number, and the upper and the lower half of what it shall be, since no number of a
// line has 64 bits.
fn forged(line: Line, state: Arriving) -> Arriving {
    let halves = line.group;
    let word = halves.k % 4294967296 * 4294967296 + halves.d % 4294967296;
    arriving_words::with(state, line.own, word)
}

// What a forged state answers. The answer is what becomes of it after further bytes.
fn aside(forged: Arriving, from: &[u8]) -> Arriving {
    arriving_words::answers(forged);
    forged.after(from)
}

// 31 hands A's slice over from the start, 32 goes on with it, and 33 hands it over in bursts of a size. 34 sets a word. The others are told
// and not kept: 35 sets a word and goes on with A's slice, 36 cuts A's slice everywhere.
fn done(line: Line, state: Arriving, from: &[u8]) -> Arriving {
    // By the number: it is what a script has (docs/SCRIPTS.md).
    match line.operation {
        31 => Arriving::start().after(from),
        32 => state.after(from),
        33 => bursts::of_size(from, line.own, true),
        34 => forged(line, state),
        35 => aside(forged(line, state), from),
        _ => bursts::cuts(from),
    }
}

// The state that is kept after a line, and told where it may be another.
pub fn call(line: Line, state: Arriving, from: &mut [u8]) -> Arriving {
    lines::say(b":");
    if 36 < line.operation {
        sweeps::all(line, state, from);
        return state;
    }
    let after = done(line, state, from);
    arriving_words::state(after);
    if line.operation < 35 { after } else { state }
}
