// Hands bytes to the reader of bursts (`arriving`) as the script on standard input says, and writes each line again with what comes of it.
// tools/arriving_model.py makes the script and what must be written, from documents 01 and 02 (docs/SCHEME.md, 9 and 11) alone.
#![tactic(auto)]

use arriving::Arriving;

// `state` is what the lines so far have made of the reader's state.
fn main() {
    let mut state = Arriving::start();
    script::of_one_part(|line, _found, from, _into| {
        state = arriving_calls::call(line, state, from);
    });
}
