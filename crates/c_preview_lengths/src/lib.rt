// The letters of a file of previews and of a packet. A group of previews has no d, so its d is 0.
#![tactic(auto)]

ghost use Rattle.group.specs.Ranges.{group_of};
ghost use Rattle.preview_numbers.specs.Previews.{preview_group_refusal, preview_node_refusal, preview_file, preview_packet};
ghost use Rattle.c_answers.specs.Exports.{Tells};

// The letters of a file of previews, k*L. Refusals: 1, 2.
// C hands numbers over one by one.
#[unsafe(no_mangle)]
pub extern "C" fn dulvaspen_preview_file_letters(
    n: usize,
    k: usize,
    l: usize,
    letters: &mut usize,
) -> usize
    ensures { Tells (preview_group_refusal (group_of n k 0 l)) (preview_file (group_of n k 0 l)) letters.old letters.new result }
{
    c_answers::tell(
        preview_numbers::file_letters(group::of(n, k, 0, l)),
        letters,
    )
}

// The letters of a node's packet, L + t(i,k). Refusals: 1, 2, 3.
#[unsafe(no_mangle)]
pub extern "C" fn dulvaspen_preview_packet_letters(
    n: usize,
    k: usize,
    l: usize,
    node: usize,
    letters: &mut usize,
) -> usize
    ensures { Tells (preview_node_refusal (group_of n k 0 l) node) (preview_packet (group_of n k 0 l) node) letters.old letters.new result }
{
    let g = group::of(n, k, 0, l);
    c_answers::tell(preview_numbers::packet_letters(g, node), letters)
}
