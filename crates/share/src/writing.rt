// Writing a share: the head, and the records that follow it, one after another.
ghost use Rattle.std.specs.Prelude.{◌≡◌, ◌<◌, length};
ghost use Rattle.records.specs.Records.{total_limit, size_for};
ghost use Rattle.layout.specs.Share.{share_of};
ghost use Rattle.kinds.specs.Kinds.{row_for_kind, head_size};
ghost use Rattle.heads.specs.Heads.{heads};
ghost use Rattle.share.specs.Calls.{Writes, fit_refusal};

use block_letters::writing;
use group::Refusal;
use heads::bytes::Fitting;
use heads::{Head, bytes as head_bytes};
use records::sizes;

// Writes the share of this head and these letters into a buffer of its exact length, from its front to its back.
fn fill(of: Fitting, packets: &[u8], share: &mut [u8])
    requires { (length packets.now < total_limit) × (length share.old ≡ size_for (head_size of.head.kind) (length packets.now)) }
    ensures { share.new ≡ share_of heads of.head packets.now }
{
    let front = kinds::head_size(of.head.kind);
    of.put(share);
    writing::put_full_blocks(front, packets, share);
    writing::put_last_block(front, packets, share);
    writing::put_end(front, packets.len(), share);
}

// Writes a share whose head's numbers are in range: refusals 5 and 6.
pub fn fitting(head: Head, packets: &[u8], share: &mut [u8]) -> Result<usize, Refusal>
    requires { (row_for_kind head.kind).refusal head.group head.node ≡ 0 }
    ensures { Writes head packets.now share.old (fit_refusal head (length packets.now) (length share.old)) result share.new }
{
    let letters = head_bytes::total(head);
    let bytes = sizes::size_for(kinds::head_size(head.kind), letters);
    group_checks::lengths(packets.len(), letters, share.len(), bytes)?;
    fill(Fitting { head }, packets, share);
    Ok(bytes)
}
