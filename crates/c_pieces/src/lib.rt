// Where the pieces for a recovery start in what a node holds, and where the collector puts them.
#![tactic(auto)]

ghost use Rattle.std.specs.Prelude.{◌+◌, ◌-◌, ◌*◌, length};
ghost use Rattle.shifts.specs.Rule.{t};
ghost use Rattle.lengths.specs.Lengths.{packet_start};
ghost use Rattle.sending.specs.Calls.{piece_refusal, entry_refusal};
ghost use Rattle.matrix.specs.Matrix.{entry_number};
ghost use Rattle.group.specs.Ranges.{group_of};
ghost use Rattle.c_answers.specs.Exports.{Tells};

// Where the piece of this rank and column starts in the node's packets. Refusals: 1, 2, 3, 5 for the packets.
// C hands numbers over one by one.
#[unsafe(no_mangle)]
pub extern "C" fn dulvaspen_piece(
    n: usize,
    k: usize,
    d: usize,
    l: usize,
    node: usize,
    rank: usize,
    column: usize,
    packets: &[u8],
    start: &mut usize,
) -> usize
    ensures { Tells (piece_refusal (group_of n k d l) node rank column (length packets.now)) (packet_start (group_of n k d l) node column + t node rank) start.old start.new result }
{
    let g = group::of(n, k, d, l);
    c_answers::tell(
        sending::pieces::piece_start(g, node, rank, column, packets.len()),
        start,
    )
}

// Where the collector puts the piece of this rank and column. Refusals: 1, 2, 3.
#[unsafe(no_mangle)]
pub extern "C" fn dulvaspen_entry(
    n: usize,
    k: usize,
    d: usize,
    l: usize,
    rank: usize,
    column: usize,
    start: &mut usize,
) -> usize
    ensures { Tells (entry_refusal (group_of n k d l) rank column) ((entry_number k rank column - 1) * l) start.old start.new result }
{
    let g = group::of(n, k, d, l);
    c_answers::tell(sending::pieces::entry(g, rank, column), start)
}
