// All nodes compared with a file, up to the second that it doesn't fit.
#![tactic(auto)]

ghost use Rattle.std.specs.Prelude.{◌≡◌, ◌+◌, ◌≤◌, ◌<◌, length};
ghost use Rattle.lengths.specs.Lengths.{file_letters};
ghost use Rattle.agreement.specs.Steps.Trying.{Compared};
ghost use Rattle.comparing_nodes.specs.Steps.Noting.{noted, wrong_nodes, wrong_rank, wrong_place};

use present::Nodes;

// A node that a file doesn't fit: its rank, and the place of its first wrong letter, both from 1.
#[derive(Clone, Copy, PartialEq, Eq)]
pub struct Wrong {
    pub rank: usize,
    pub place: usize,
}

// How many nodes a file doesn't fit: none, one, or more.
#[derive(Clone, Copy, PartialEq, Eq)]
pub enum Found {
    Nobody,
    One(Wrong),
    Several,
}

// What is found with one rank more, whose first `right` letters of `count` are right.
fn note(found: Found, rank: usize, right: usize, count: usize) -> Found
    requires { right ≤ count }
    ensures { result ≡ noted found rank right count }
{
    if count <= right {
        return found;
    }
    match found {
        Found::Nobody => Found::One(Wrong {
            rank,
            place: right + 1,
        }),
        Found::One(_) | Found::Several => Found::Several,
    }
}

// The rank after the first `ranks`.
fn compare_next(nodes: &Nodes, file: &[u8], ranks: usize, found: Found) -> Found
    requires next { (length file.now ≡ file_letters nodes.now.g) × (ranks < length nodes.now.ids.now) × (wrong_nodes found < 2) }
    requires before { Compared nodes.now.g nodes.now.ids.now nodes.now.packets.now file.now ranks (wrong_nodes found) (wrong_rank found) (wrong_place found) }
    ensures { (wrong_nodes result ≤ 2) × (Compared nodes.now.g nodes.now.ids.now nodes.now.packets.now file.now (ranks + 1) (wrong_nodes result) (wrong_rank result) (wrong_place result)) }
{
    let node = nodes.ids[ranks];
    let start = nodes.starts[ranks];
    let end = nodes.starts[ranks + 1];
    let right = comparing::right_letters(nodes.g, node, file, &nodes.packets[start..end]);
    note(found, ranks + 1, right, end - start)
}

// Rank after rank.
pub fn compare_all(nodes: &Nodes, file: &[u8]) -> Found
    requires { length file.now ≡ file_letters nodes.now.g }
    ensures { (wrong_nodes result ≤ 2) × (Compared nodes.now.g nodes.now.ids.now nodes.now.packets.now file.now (length nodes.now.ids.now) (wrong_nodes result) (wrong_rank result) (wrong_place result)) }
{
    let mut found = Found::Nobody;
    for v in 0..nodes.ids.len() {
        found = compare_next(nodes, file, v, found);
        if found == Found::Several {
            return found;
        }
    }
    found
}
