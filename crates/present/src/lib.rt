// Nodes that are present: where each one's letters start in what was handed in.
#![tactic(auto)]

ghost use Rattle.std.specs.Prelude.{length};
ghost use Rattle.matrix.specs.Pieces.{Chosen};
ghost use Rattle.present.specs.Steps.Places.{StartsAt, Present};

use group::Group;
use lengths::known::Member;

// Nodes of a group that are present, at least k+2 of them, by falling ids: where each one's letters start, and all their letters one node after another.
#[derive(Clone, Copy)]
pub struct Nodes<'a> {
    pub g: Group,
    pub ids: &'a [usize],
    pub starts: &'a [usize],
    pub packets: &'a [u8],
    pub ghost present: { Present g ids.now packets.now },
    pub ghost placed: { StartsAt g ids.now starts.now },
}

// The letters of the ranks before each: index v has those of the first v ranks, so the last has those of all.
pub fn starts(g: Group, ids: &[usize]) -> [usize; 17]
    requires { Chosen g (length ids.now) ids.now }
    ensures { StartsAt g ids.now result }
{
    let mut starts = [0usize; 17];
    let mut end = 0;
    for (v, id) in ids.iter().enumerate() {
        end += Member { g, node: *id }.letters();
        starts[v + 1] = end;
    }
    starts
}
