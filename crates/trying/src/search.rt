// The tries.
ghost use Rattle.std.specs.Prelude.{◌≡◌, ◌≤◌, length};
ghost use Rattle.lengths.specs.Lengths.{file_letters};
ghost use Rattle.agreement.specs.Steps.Trying.{Tried, Compared};
ghost use Rattle.comparing_nodes.specs.Steps.Noting.{wrong_nodes, wrong_rank, wrong_place};
ghost use Rattle.trying.specs.Searched.{Searched};

use comparing_nodes::Found;
use gathering::{collecting, kept};
use present::Nodes;

// A try: the file that the first k+1 nodes without the one of rank `without` give back, compared with all.
fn attempt(nodes: &Nodes, without: usize, file: &mut [u8]) -> Found
    requires { length file.old ≡ file_letters nodes.now.g }
    ensures { (wrong_nodes result ≤ 2) × (Tried nodes.now.g nodes.now.ids.now nodes.now.packets.now without file.new) × (Compared nodes.now.g nodes.now.ids.now nodes.now.packets.now file.new (length nodes.now.ids.now) (wrong_nodes result) (wrong_rank result) (wrong_place result)) }
{
    collecting::collect(nodes, without, file);
    let g = nodes.g;
    let chosen = kept::ids(g, nodes.ids, without);
    solved_columns::recover(g, &chosen[0..g.k], file);
    comparing_nodes::compare_all(nodes, file)
}

// Leaves in `file` the file that all nodes share, or all but one, and tells of that one. The first try is without rank k+1, so it is from the first k nodes; where they, and so what it
// recovers, may hold the odd one, each of them is left out in turn. A try that leaves no more than one node that doesn't fit settles the question.
pub fn search(nodes: &Nodes, file: &mut [u8]) -> Found
    requires { length file.old ≡ file_letters nodes.now.g }
    ensures length { length file.new ≡ file_letters nodes.now.g }
    ensures found { Searched nodes.now.g nodes.now.ids.now nodes.now.packets.now file.new (wrong_nodes result) (wrong_rank result) (wrong_place result) }
{
    for without in (1..=nodes.g.k + 1).rev() {
        let found = attempt(nodes, without, file);
        if found != Found::Several {
            return found;
        }
    }
    Found::Several
}
