// A file of previews from the pieces of k nodes, in place. A group of previews has no d, so its d is 0.
#![tactic(auto)]

ghost use Rattle.group.specs.Ranges.{group_of};
ghost use Rattle.c_preview_recovery.specs.Previews.{PreviewRecovers};

// The file, in place, from the pieces of k nodes. Refusals: 1, 2, 3, 4, 5 for the buffer.
#[unsafe(no_mangle)]
pub extern "C" fn dulvaspen_preview_recover(
    n: usize,
    k: usize,
    l: usize,
    ids: &[usize],
    buffer: &mut [u8],
    count: &mut usize,
) -> usize
    ensures { PreviewRecovers (group_of n k 0 l) ids.now buffer.old buffer.new count.old count.new result }
{
    c_answers::tell(
        preview_recovering::recovery::recover(group::of(n, k, 0, l), ids, buffer),
        count,
    )
}
