// What a node makes: its packets from the file, and its piece for a lost node.
#![tactic(auto)]

ghost use Rattle.std.specs.Prelude.{length};
ghost use Rattle.letters.specs.Algebra.{xors};
ghost use Rattle.nodes.specs.Calls.{encode_refusal};
ghost use Rattle.helpers.specs.Calls.{help_refusal};
ghost use Rattle.matrix.specs.Matrix.{packets as product};
ghost use Rattle.matrix.specs.Repair.{helping};
ghost use Rattle.group.specs.Ranges.{group_of};
ghost use Rattle.c_answers.specs.Exports.{Fills};

// A node's packets from the file. Refusals: 1, 2, 3, 5 for the file, 6 for the packets.
// C hands numbers over one by one.
#[unsafe(no_mangle)]
pub extern "C" fn dulvaspen_encode(
    n: usize,
    k: usize,
    d: usize,
    l: usize,
    node: usize,
    file: &[u8],
    packets: &mut [u8],
) -> usize
    ensures { Fills (encode_refusal (group_of n k d l) node (length file.now) (length packets.old)) (product xors (group_of n k d l) file.now node) packets.old packets.new result }
{
    let g = group::of(n, k, d, l);
    group::answer_number(nodes::encoding::encode(g, node, file, packets))
}

// The piece that a helper sends for the lost node. Refusals: 1, 2, 3, 4, 5 for the packets, 6 for the piece.
#[unsafe(no_mangle)]
pub extern "C" fn dulvaspen_help(
    n: usize,
    k: usize,
    d: usize,
    l: usize,
    lost: usize,
    helper: usize,
    rank: usize,
    packets: &[u8],
    piece: &mut [u8],
) -> usize
    ensures { Fills (help_refusal (group_of n k d l) lost helper rank (length packets.now) (length piece.old)) (helping xors (group_of n k d l) lost helper rank packets.now) piece.old piece.new result }
{
    let g = group::of(n, k, d, l);
    group::answer_number(helpers::helping::help(g, lost, helper, rank, packets, piece))
}
