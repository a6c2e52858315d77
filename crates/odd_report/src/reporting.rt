// The report.
ghost use Rattle.std.specs.Prelude.{◌≡◌, Ok, Err};
ghost use Rattle.comparing_nodes.specs.Steps.Noting.{wrong_nodes, wrong_place};
ghost use Rattle.odd_report.specs.Standings.{standing_in, nodes_where, all_absent};
ghost use Rattle.odd_report.specs.Steps.ByCount.{standing_by, odd_id, Named};

use crate::{Node, Report, Standing};
use comparing_nodes::Found;
use group::Refusal;

// No node is present.
fn absent() -> [Node; 16]
    ensures { result ≡ all_absent }
{
    let node = Node {
        standing: Standing::Absent,
    };
    [node; 16]
}

// The report of a call that is refused.
pub fn refused(refusal: Refusal) -> Report
    ensures { (result.check ≡ Err refusal) × (result.nodes ≡ all_absent) }
{
    let nodes = absent();
    Report {
        check: Err(refusal),
        nodes,
    }
}

// What was found among the nodes with these ids.
#[derive(Clone, Copy)]
struct Finding<'a> {
    ids: &'a [usize],
    found: Found,
    ghost named: { Named ids.now found },
}

impl Finding<'_> {
    // How a node that is present stands.
    fn standing(&self, node: usize) -> Standing
        ensures { result ≡ standing_by (wrong_nodes self.now.found) (odd_id self.now.ids.now self.now.found) (wrong_place self.now.found) node }
    {
        match self.found {
            Found::Nobody => Standing::Agreeing,
            Found::One(wrong) => {
                let odd = self.ids[wrong.rank - 1];
                if node == odd {
                    Standing::Odd(wrong.place)
                } else {
                    Standing::Agreeing
                }
            }
            Found::Several => Standing::Unknown,
        }
    }

    // The same for any node.
    fn standing_of(&self, node: usize) -> Standing
        ensures { result ≡ standing_in self.now.ids.now (standing_by (wrong_nodes self.now.found) (odd_id self.now.ids.now self.now.found) (wrong_place self.now.found)) node }
    {
        if ids::is_among(node, self.ids) {
            return self.standing(node);
        }
        Standing::Absent
    }

    // All sixteen nodes.
    fn nodes(&self) -> [Node; 16]
        ensures { result ≡ nodes_where self.now.ids.now (standing_by (wrong_nodes self.now.found) (odd_id self.now.ids.now self.now.found) (wrong_place self.now.found)) }
    {
        let mut nodes = absent();
        for i in 0..16 {
            let standing = self.standing_of(i + 1);
            nodes[i] = Node { standing };
        }
        nodes
    }
}

// The report of what was found.
pub fn told(ids: &[usize], found: Found) -> Report
    requires { Named ids.now found }
    ensures { (result.check ≡ Ok tt) × (result.nodes ≡ nodes_where ids.now (standing_by (wrong_nodes found) (odd_id ids.now found) (wrong_place found))) }
{
    let nodes = Finding { ids, found }.nodes();
    Report {
        check: Ok(()),
        nodes,
    }
}
