// The lengths that a caller has to lend: of a file, of what a node holds, of what a helper sends.
#![tactic(auto)]

ghost use Rattle.group.specs.Ranges.{group_refusal, node_refusal};
ghost use Rattle.lengths.specs.Lengths.{file_letters, node_letters, repair_letters};
ghost use Rattle.group.specs.Ranges.{group_of};
ghost use Rattle.c_answers.specs.Exports.{Tells};

// The letters of a file, B*L. Refusals: 1, 2.
// C hands numbers over one by one.
#[unsafe(no_mangle)]
pub extern "C" fn dulvaspen_file_letters(
    n: usize,
    k: usize,
    d: usize,
    l: usize,
    letters: &mut usize,
) -> usize
    ensures { Tells (group_refusal (group_of n k d l)) (file_letters (group_of n k d l)) letters.old letters.new result }
{
    c_answers::tell(lengths::file_letters(group::of(n, k, d, l)), letters)
}

// The letters that a node holds, T. Refusals: 1, 2, 3.
#[unsafe(no_mangle)]
pub extern "C" fn dulvaspen_packet_letters(
    n: usize,
    k: usize,
    d: usize,
    l: usize,
    node: usize,
    letters: &mut usize,
) -> usize
    ensures { Tells (node_refusal (group_of n k d l) node) (node_letters (group_of n k d l) node) letters.old letters.new result }
{
    let g = group::of(n, k, d, l);
    c_answers::tell(lengths::packet_letters(g, node), letters)
}

// The letters of a helper's piece for the lost node, L'. Refusals: 1, 2, 3.
#[unsafe(no_mangle)]
pub extern "C" fn dulvaspen_repair_letters(
    n: usize,
    k: usize,
    d: usize,
    l: usize,
    lost: usize,
    letters: &mut usize,
) -> usize
    ensures { Tells (node_refusal (group_of n k d l) lost) (repair_letters (group_of n k d l) lost) letters.old letters.new result }
{
    let g = group::of(n, k, d, l);
    c_answers::tell(lengths::repair_letters(g, lost), letters)
}
