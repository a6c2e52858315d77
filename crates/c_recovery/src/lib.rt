// Recovery and repair, in place.
#![tactic(auto)]

ghost use Rattle.group.specs.Ranges.{group_of};
ghost use Rattle.c_recovery.specs.Recovery.{Recovers, Repairs};

// The file, in place, from the pieces of k nodes. Refusals: 1, 2, 3, 4, 5 for the buffer.
// C hands numbers over one by one.
#[unsafe(no_mangle)]
pub extern "C" fn dulvaspen_recover(
    n: usize,
    k: usize,
    d: usize,
    l: usize,
    ids: &[usize],
    buffer: &mut [u8],
    count: &mut usize,
) -> usize
    ensures { Recovers (group_of n k d l) ids.now buffer.old buffer.new count.old count.new result }
{
    c_answers::tell(
        recovering::recovery::recover(group::of(n, k, d, l), ids, buffer),
        count,
    )
}

// The lost node's packets, in place, from d pieces. Refusals: 1, 2, 3, 4, 5 for the buffer.
#[unsafe(no_mangle)]
pub extern "C" fn dulvaspen_repair(
    n: usize,
    k: usize,
    d: usize,
    l: usize,
    lost: usize,
    helpers: &[usize],
    buffer: &mut [u8],
    count: &mut usize,
) -> usize
    ensures { Repairs (group_of n k d l) lost helpers.now buffer.old buffer.new count.old count.new result }
{
    let g = group::of(n, k, d, l);
    c_answers::tell(
        rebuilding::repairing::repair(g, lost, helpers, buffer),
        count,
    )
}
