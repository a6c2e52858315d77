// A lost node from its d helpers.
use crate::steps;
use group::Group;

// The piece that a helper of this rank sends, made in C from `at` on.
fn help(g: Group, lost: usize, helper: usize, rank: usize, b: &[u8], c: &mut [u8], at: usize) {
    let packets = lines::part(b, 0, steps::held(g, helper));
    let piece = lines::part_mut(c, at, lines::value(lengths::repair_letters(g, lost)));
    let answer = store::helping::help(g, lost, helper, rank, packets, piece);
    steps::told(b"help", answer, piece);
}

// All helpers, one after another.
fn help_all(g: Group, lost: usize, helpers: &[usize], a: &mut [u8], b: &mut [u8], c: &mut [u8]) {
    let size = lines::value(lengths::repair_letters(g, lost));
    let mut at = 0;
    for (i, helper) in helpers.iter().enumerate() {
        steps::encode(g, *helper, a, b);
        help(g, lost, *helper, i + 1, b, c, at);
        at = steps::after(at, size);
    }
}

// Repairs the node, in place in C: as many letters as it holds.
pub fn repair(g: Group, lost: usize, helpers: &[usize], a: &mut [u8], b: &mut [u8], c: &mut [u8]) {
    help_all(g, lost, helpers, a, b, c);
    let buffer = lines::part_mut(c, 0, steps::held(g, lost));
    let answer = store::repairing::repair(g, lost, helpers, buffer);
    steps::told(b"repair", answer, buffer);
}
