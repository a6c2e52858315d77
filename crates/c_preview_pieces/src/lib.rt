// Where the pieces of previews start in what a node holds, and where the collector puts them. A group of previews has no d, so its d is 0.
#![tactic(auto)]

ghost use Rattle.std.specs.Prelude.{◌-◌, ◌*◌, length};
ghost use Rattle.shifts.specs.Rule.{preview_shift};
ghost use Rattle.group.specs.Ranges.{group_of};
ghost use Rattle.preview_pieces.specs.Calls.{preview_piece_refusal, preview_entry_refusal};
ghost use Rattle.c_answers.specs.Exports.{Tells};

// Where the piece of this rank starts in the node's packet. Refusals: 1, 2, 3, 5 for the packet.
// C hands numbers over one by one.
#[unsafe(no_mangle)]
pub extern "C" fn dulvaspen_preview_piece(
    n: usize,
    k: usize,
    l: usize,
    node: usize,
    rank: usize,
    packet: &[u8],
    start: &mut usize,
) -> usize
    ensures { Tells (preview_piece_refusal (group_of n k 0 l) node rank (length packet.now)) (preview_shift node rank) start.old start.new result }
{
    let g = group::of(n, k, 0, l);
    c_answers::tell(
        preview_pieces::pieces::piece_start(g, node, rank, packet.len()),
        start,
    )
}

// Where the collector puts the piece of this rank. Refusals: 1, 2, 3.
#[unsafe(no_mangle)]
pub extern "C" fn dulvaspen_preview_entry(
    n: usize,
    k: usize,
    l: usize,
    rank: usize,
    start: &mut usize,
) -> usize
    ensures { Tells (preview_entry_refusal (group_of n k 0 l) rank) ((rank - 1) * l) start.old start.new result }
{
    let g = group::of(n, k, 0, l);
    c_answers::tell(preview_pieces::pieces::entry(g, rank), start)
}
