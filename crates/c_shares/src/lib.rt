// Shares: written, read and judged.
#![tactic(auto)]

ghost use Rattle.std.specs.Prelude.{length};
ghost use Rattle.share.specs.Calls.{write_refusal, head_for};
ghost use Rattle.heads.specs.Heads.{heads};
ghost use Rattle.layout.specs.Share.{share_of};
ghost use Rattle.group.specs.Ranges.{group_of};
ghost use Rattle.c_answers.specs.Exports.{Fills};
ghost use Rattle.c_shares.specs.Shares.{JudgesShare, ReadsShare, TellsGoodBytes};

// A node's packets as a share. Refusals: 1, 2, 3, 5 for the packets, 6 for the share.
// C hands numbers over one by one.
#[unsafe(no_mangle)]
pub extern "C" fn dulvaspen_write_share(
    n: usize,
    k: usize,
    d: usize,
    l: usize,
    node: usize,
    batch: u32,
    packets: &[u8],
    share: &mut [u8],
) -> usize
    ensures { Fills (write_refusal (head_for (group_of n k d l) node batch) (length packets.now) (length share.old)) (share_of heads (head_for (group_of n k d l) node batch) packets.now) share.old share.new result }
{
    let g = group::of(n, k, d, l);
    group::answer_number(share::write(g, node, batch, packets, share))
}

// What bytes are, without copying letters. Refusals: 7 to 12, and then 6 for a head that has not seven numbers.
#[unsafe(no_mangle)]
pub extern "C" fn dulvaspen_judge_share(share: &[u8], head: &mut [usize]) -> usize
    ensures { JudgesShare share.now head.old result head.new }
{
    c_judgment::put_judgment(share::judge(share), head)
}

// A share's letters and its head. Refusals: 7 to 12, and then 6 for packets of another length than T, or a head that has not seven numbers.
#[unsafe(no_mangle)]
pub extern "C" fn dulvaspen_read_share(
    share: &[u8],
    packets: &mut [u8],
    head: &mut [usize],
) -> usize
    ensures { ReadsShare share.now packets.old head.old result packets.new head.new }
{
    if head.len() != 7 {
        return c_judgment::put_judgment(share::judge(share), head);
    }
    c_judgment::put_judgment(share::read(share, packets), head)
}

// How many bytes can stand, from the front: all of them for a share or the beginning of one, else the index of the first that can't. It
// refuses nothing.
#[unsafe(no_mangle)]
pub extern "C" fn dulvaspen_good_bytes(share: &[u8], bytes: &mut usize) -> usize
    ensures { TellsGoodBytes share.now result bytes.new }
{
    *bytes = share::good_bytes(share);
    0
}
