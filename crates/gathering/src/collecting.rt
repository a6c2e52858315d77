// The pieces that k of the nodes would send, copied out of what was handed in to where the collector puts them.
ghost use Rattle.std.specs.Prelude.{◌≡◌, ◌+◌, ◌-◌, ◌*◌, ◌≤◌, length, get_or};
ghost use Rattle.letters.specs.Laid.{Laid};
ghost use Rattle.lengths.specs.Lengths.{file_letters};
ghost use Rattle.matrix.specs.Matrix.{before, entry_number, Free};
ghost use Rattle.gathering.specs.Steps.Gathered.{collected_without};

use crate::kept;
use lengths::known::Member;
use matrix::entries;
use present::Nodes;

// Fills `file` with the pieces of the first k+1 nodes without the one of rank `without`, laid out as the file.
pub fn collect(nodes: &Nodes, without: usize, file: &mut [u8])
    requires { length file.old ≡ file_letters nodes.now.g }
    ensures { file.new ≡ collected_without nodes.now.g nodes.now.ids.now nodes.now.packets.now without }
{
    for u in 0..nodes.g.d {
        collect_column(nodes, without, u + 1, file);
    }
}

// Those of column `u`, one after another.
fn collect_column(nodes: &Nodes, without: usize, u: usize, file: &mut [u8])
    requires { (length file.old ≡ file_letters nodes.now.g) × (1 ≤ u) × (u ≤ nodes.now.g.d) }
    ensures { Laid file.old file.new (before nodes.now.g.k u * nodes.now.g.l) (before nodes.now.g.k (u + 1) * nodes.now.g.l) (λ q. get_or (collected_without nodes.now.g nodes.now.ids.now nodes.now.packets.now without) q 0) }
{
    let g = nodes.g;
    let sequences = u.min(g.k);
    let mut at = entries::free_start(g, 1, u);
    for v in 0..sequences {
        collect_piece(nodes, without, v + 1, u, at, file);
        at += g.l;
    }
}

// That of the v-th node and column `u`, which stands at index `at`.
fn collect_piece(nodes: &Nodes, without: usize, v: usize, u: usize, at: usize, file: &mut [u8])
    requires { (length file.old ≡ file_letters nodes.now.g) × (Free nodes.now.g v u) × (at ≡ (entry_number nodes.now.g.k v u - 1) * nodes.now.g.l) }
    ensures { Laid file.old file.new at (at + nodes.now.g.l) (λ q. get_or (collected_without nodes.now.g nodes.now.ids.now nodes.now.packets.now without) q 0) }
{
    let g = nodes.g;
    let rank = kept::rank(without, v);
    let node = nodes.ids[rank - 1];
    let start = nodes.starts[rank - 1] + Member { g, node }.packet_start(u);
    let from = start + shifts::shift(node, v);
    letters::moving::copy(nodes.packets, from, file, at, g.l);
}
