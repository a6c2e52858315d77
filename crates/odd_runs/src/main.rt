// Looks for the odd one of some nodes (`odd_one`) as the script on standard input says, and writes each line again with what comes back.
// tools/odd_model.py makes the script and what must be written, from documents 01 and 02 (docs/SCHEME.md) alone and by elimination.
#![tactic(auto)]

use script_line::Line;

// 11 encodes a node from the file in A's slice.
fn encode(line: Line, from: &[u8], into: &mut [u8]) {
    script::answer(store::encoding::encode(line.group, line.first, from, into));
}

// 20 looks for the odd one of some nodes; any other line encodes.
fn call(line: Line, found: &[usize; 32], from: &mut [u8], into: &mut [u8]) {
    // By the number: it is what a script has (docs/SCRIPTS.md).
    if line.operation == 20 {
        odd_calls::call(line, found, from, into);
    } else {
        encode(line, from, into);
    }
}

fn main() {
    script::of_one_part(call);
}
