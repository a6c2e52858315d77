// A node's packets as stored bytes: the share, written, judged, also while it arrives, and read.
#![tactic(auto)]

mod writing;

ghost use Rattle.group.specs.Answers.{Answers};
ghost use Rattle.group.specs.Ranges.{node_refusal};
ghost use Rattle.preview_numbers.specs.Previews.{preview_node_refusal};
ghost use Rattle.kinds.specs.Kinds.{row_for_kind};
ghost use Rattle.share.specs.Calls.{Written, head_for, preview_head, kind_bytes, share_bytes, preview_bytes};

pub use arriving::{Arriving, Coming, take};
use group::{Group, Refusal};
use heads::Head;
pub use judging::{Fault, good_bytes, judge};
pub use reading::read;
use records::sizes;

// The bytes of a node's share of this kind. Refusals: 1, 2, 3, by the kind's ranges.
fn bytes_of(kind: usize, g: Group, node: usize) -> Result<usize, Refusal>
    ensures { Answers result ((row_for_kind kind).refusal g node) (kind_bytes kind g node) }
{
    kinds::check(kind, g, node)?;
    let letters = kinds::total(kind, g, node);
    Ok(sizes::size_for(kinds::head_size(kind), letters))
}

// The bytes of a node's share. Refusals: 1, 2, 3.
pub fn share_bytes(g: Group, node: usize) -> Result<usize, Refusal>
    ensures { Answers result (node_refusal g node) (share_bytes g node) }
{
    bytes_of(kinds::for_length(g.l), g, node)
}

// The bytes of a node's share of previews. Refusals: 1, 2, 3.
pub fn preview_bytes(g: Group, node: usize) -> Result<usize, Refusal>
    ensures { Answers result (preview_node_refusal g node) (preview_bytes g node) }
{
    bytes_of(kinds::PREVIEWS, g, node)
}

// Writes letters as the share of this head, whatever its kind. Refusals: 1, 2, 3 by the kind's ranges, 5, 6.
fn write_head(head: Head, letters: &[u8], share: &mut [u8]) -> Result<usize, Refusal>
    ensures { Written head letters.now share.old result share.new }
{
    kinds::check(head.kind, head.group, head.node)?;
    writing::fitting(head, letters, share)
}

// Writes a node's packets, one after another, as its share, of the kind that serves their L. The answer is how many bytes it has. A refused
// call leaves `share` as it was. Refusals: 1, 2, 3, 5, 6.
pub fn write(
    g: Group,
    node: usize,
    batch: u32,
    packets: &[u8],
    share: &mut [u8],
) -> Result<usize, Refusal>
    ensures { Written (head_for g node batch) packets.now share.old result share.new }
{
    let head = Head {
        group: g,
        node,
        batch,
        kind: kinds::for_length(g.l),
    };
    write_head(head, packets, share)
}

// Writes a node's packet of previews as its share, in the same way. Refusals: 1, 2, 3, 5, 6.
pub fn write_preview(
    g: Group,
    node: usize,
    batch: u32,
    packet: &[u8],
    share: &mut [u8],
) -> Result<usize, Refusal>
    ensures { Written (preview_head g node batch) packet.now share.old result share.new }
{
    let head = Head {
        group: g,
        node,
        batch,
        kind: kinds::PREVIEWS,
    };
    write_head(head, packet, share)
}
