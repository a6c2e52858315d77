// The ids of the first k+1 ranks without one of them.
ghost use Rattle.std.specs.Prelude.{◌≡◌, ◌+◌, ◌≤◌, length};
ghost use Rattle.agreement.specs.Steps.Trying.{kept_rank};
ghost use Rattle.gathering.specs.Steps.Gathered.{KeptIds};

use group::Group;

// The rank that comes as the v-th where rank `without` is passed over.
pub fn rank(without: usize, v: usize) -> usize
    requires { v ≤ 16 }
    ensures { result ≡ kept_rank without v }
{
    if v < without {
        return v;
    }
    v + 1
}

// The ids of k ranks, at the front of an array.
pub fn ids(g: Group, all: &[usize], without: usize) -> [usize; 16]
    requires { (g.k ≤ 15) × (g.k + 1 ≤ length all.now) }
    ensures { KeptIds g all.now without result }
{
    let mut kept = [0usize; 16];
    for v in 0..g.k {
        let rank = rank(without, v + 1);
        kept[v] = all[rank - 1];
    }
    kept
}
