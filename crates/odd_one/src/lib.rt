// Which node is lying: of the nodes that are present, the one that holds other packets than the file of all the others gives it.
#![tactic(auto)]

ghost use Rattle.std.specs.Prelude.{◌≡◌, length};
ghost use Rattle.odd_checks.specs.Refusals.{odd_refusal};
ghost use Rattle.odd_one.specs.Calls.{Reports};

use comparing_nodes::Found;
use group::Group;
pub use odd_checks::check;
use odd_report::reporting;
pub use odd_report::{Node, Report, Standing};
use present::Nodes;
use trying::search;

// Says of each node whether it agrees with the others. `ids` are those of the present nodes, falling, and `packets` holds what they hold, one node after another in that order.
// Where all agree, or all but one, `file` then holds the file that they share; where more than one is wrong, zeros.
// Refusals: 1, 2, 3 for an id outside 1..n (how many there are isn't tested), 4 for ids that don't fall strictly, 5 for packets of another length than all nodes' T together,
// 13 for fewer than k+2 ids, 6 for a file of another length than B*L. A refused call leaves `file` as it was, and all nodes are absent.
// (What is asked comes one by one, here and in `check`: README.md names both, and nothing is known of it before it is checked, which `Nodes` then holds.)
pub fn find(g: Group, ids: &[usize], packets: &[u8], file: &mut [u8]) -> Report
    ensures { Reports g ids.now packets.now file.old file.new result }
{
    match check(g, ids, packets.len(), file.len()) {
        Err(refusal) => reporting::refused(refusal),
        Ok(()) => find_present(g, ids, packets, file),
    }
}

// The same for nodes that are present.
fn find_present(g: Group, ids: &[usize], packets: &[u8], file: &mut [u8]) -> Report
    requires { odd_refusal g ids.now (length packets.now) (length file.old) ≡ 0 }
    ensures { Reports g ids.now packets.now file.old file.new result }
{
    let starts = present::starts(g, ids);
    let nodes = Nodes {
        g,
        ids,
        starts: &starts,
        packets,
    };
    let found = search::search(&nodes, file);
    if found == Found::Several {
        file.fill(0);
    }
    reporting::told(ids, found)
}
