// The store's calls by their numbers in a script (docs/SCRIPTS.md), for the test programs. The numbers of a line after its two slices are the group's,
// [n,k,d] and L, and then the call's own; ids come last.
#![tactic(auto)]

use group::Refusal;
use script_line::Line;

// A piece is put at the start of the slice that is lent, so that what is handed back is seen there; refused, it is empty. The answer is
// its companion's.
fn piece(line: Line, from: &[u8], into: &mut [u8]) -> Result<usize, Refusal> {
    let g = line.group;
    let (node, rank, column) = (line.first, line.second, line.third);
    lines::put(into, 0, store::pieces::piece(g, node, rank, column, from));
    store::pieces::piece_start(g, node, rank, column, from.len())
}

// 11 encode, 12 piece, 13 help, 14 recover, 15 repair; 16 to 19 lengths and places. The numbers are the scripts' own: so they are matched as they come.
fn of_store(line: Line, ids: &[usize], from: &[u8], into: &mut [u8]) -> Result<usize, Refusal> {
    let g = line.group;
    let operation = line.operation;
    match operation {
        11 => store::encoding::encode(g, line.first, from, into),
        12 => piece(line, from, into),
        13 => store::helping::help(g, line.first, line.second, line.third, from, into),
        14 => store::recovery::recover(g, ids, into),
        15 => store::repairing::repair(g, line.first, ids, into),
        16 => lengths::file_letters(g),
        17 => lengths::packet_letters(g, line.first),
        18 => lengths::repair_letters(g, line.first),
        _ => store::pieces::entry(g, line.first, line.second),
    }
}

// The call that a line names, on these slices, and its answer behind the line.
pub fn call(line: Line, found: &[usize; 32], from: &[u8], into: &mut [u8]) {
    let before = if line.operation == 14 { 9 } else { 10 };
    let ids = script_line::rest(found, before, line.count);
    script::answer(of_store(line, ids, from, into));
}
