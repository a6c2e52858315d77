// Every line of a script, whichever call it names (docs/SCRIPTS.md).
#![tactic(auto)]

use arriving::Arriving;
use script::Parts;
use script_line::Line;

// The call of a line, on the slices that it names. The answer is the state of the reader of bursts, which only its own calls change.
fn called(
    line: Line,
    found: &[usize; 32],
    state: Arriving,
    from: &mut [u8],
    into: &mut [u8],
) -> Arriving {
    // By the number: it is what a script has (docs/SCRIPTS.md), ten of them for each library.
    let operation = line.operation;
    if operation < 20 {
        calls::call(line, found, from, into);
    } else if operation == 20 {
        odd_calls::call(line, found, from, into);
    } else if operation < 30 {
        share_calls::call(line, from, into);
    } else if operation < 40 {
        return arriving_calls::call(line, state, from);
    } else {
        preview_calls::call(line, found, from, into);
    }
    state
}

// Line by line, in a script of many parts. The answer is what the lines make of the reader's state.
pub fn run(text: &[u8], state: Arriving, a: &mut [u8], b: &mut [u8]) -> Arriving {
    let mut state = state;
    script::run(Parts::Many, text, a, b, |line, found, from, into| {
        state = called(line, found, state, from, into);
    });
    state
}
