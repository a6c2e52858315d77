// The calls of previews by their numbers in a script (docs/SCRIPTS.md). The numbers of a line after its two slices are the group's, [n,k,d] and L, where
// d is 0 in a group of previews, and then the call's own, which are a node and a rank, or the ids.
#![tactic(auto)]

use group::{Group, Refusal};
use script_line::Line;

// A piece is put at the start of the slice that is lent, so that what is handed back is seen there; refused, it is empty. The answer is
// its companion's.
fn piece(
    g: Group,
    node: usize,
    rank: usize,
    from: &[u8],
    into: &mut [u8],
) -> Result<usize, Refusal> {
    lines::put(into, 0, preview::pieces::piece(g, node, rank, from));
    preview::pieces::piece_start(g, node, rank, from.len())
}

// 41 encode, 42 piece, 43 recover; 44 and 45 lengths, 46 where a piece goes. The numbers are the scripts' own: so they are matched as they come.
fn of_previews(line: Line, ids: &[usize], from: &[u8], into: &mut [u8]) -> Result<usize, Refusal> {
    let g = line.group;
    match line.operation {
        41 => preview::encoding::encode(g, line.first, from, into),
        42 => piece(g, line.first, line.second, from, into),
        43 => preview::recovery::recover(g, ids, into),
        44 => preview::file_letters(g),
        45 => preview::packet_letters(g, line.first),
        _ => preview::pieces::entry(g, line.first),
    }
}

// The call that a line names, on these slices, and its answer behind the line.
pub fn call(line: Line, found: &[usize; 32], from: &[u8], into: &mut [u8]) {
    let ids = script_line::rest(found, 9, line.count);
    script::answer(of_previews(line, ids, from, into));
}
