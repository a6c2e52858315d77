// The bytes of a node's share, and of its share of previews.
#![tactic(auto)]

ghost use Rattle.group.specs.Ranges.{node_refusal};
ghost use Rattle.preview_numbers.specs.Previews.{preview_node_refusal};
ghost use Rattle.share.specs.Calls.{share_bytes, preview_bytes};
ghost use Rattle.group.specs.Ranges.{group_of};
ghost use Rattle.c_answers.specs.Exports.{Tells};

// The bytes of a node's share. Refusals: 1, 2, 3.
// C hands numbers over one by one.
#[unsafe(no_mangle)]
pub extern "C" fn dulvaspen_share_bytes(
    n: usize,
    k: usize,
    d: usize,
    l: usize,
    node: usize,
    bytes: &mut usize,
) -> usize
    ensures { Tells (node_refusal (group_of n k d l) node) (share_bytes (group_of n k d l) node) bytes.old bytes.new result }
{
    let g = group::of(n, k, d, l);
    c_answers::tell(share::share_bytes(g, node), bytes)
}

// The bytes of a node's share of previews. Refusals: 1, 2, 3.
#[unsafe(no_mangle)]
pub extern "C" fn dulvaspen_preview_share_bytes(
    n: usize,
    k: usize,
    l: usize,
    node: usize,
    bytes: &mut usize,
) -> usize
    ensures { Tells (preview_node_refusal (group_of n k 0 l) node) (preview_bytes (group_of n k 0 l) node) bytes.old bytes.new result }
{
    let g = group::of(n, k, 0, l);
    c_answers::tell(share::preview_bytes(g, node), bytes)
}
