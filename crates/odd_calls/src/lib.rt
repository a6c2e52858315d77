// The call that looks for the odd one of some nodes, by its number in a script (docs/SCRIPTS.md).
#![tactic(auto)]

mod told;

use script_line::Line;

// Adds a number to the letter at an index; there is nothing to add to behind the end. The same again takes it back.
fn add(letters: &mut [u8], at: usize, by: usize) {
    if let Some(letter) = letters.get_mut(at) {
        *letter ^= (by % 256) as u8;
    }
}

// The two damages of a line, each an index and what is added there. Added twice, nothing is damaged.
fn damage(found: &[usize; 32], letters: &mut [u8]) {
    add(letters, found[9], found[10]);
    add(letters, found[11], found[12]);
}

// 20 looks for the odd one of the nodes whose ids come last, whose packets are A's slice with the damages. A is left as it was.
pub fn call(line: Line, found: &[usize; 32], from: &mut [u8], into: &mut [u8]) {
    let ids = script_line::rest(found, 13, line.count);
    damage(found, from);
    let report = odd_one::find(line.group, ids, from, into);
    damage(found, from);
    told::report(report);
}
