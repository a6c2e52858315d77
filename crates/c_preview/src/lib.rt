// What a node of previews holds: its packet from the file, and that packet as a share. A group of previews has no d, so its d is 0.
// (Writing stands here and not beside the base's: an archive of one call that writes has it laid in, with its kind as a constant.)
#![tactic(auto)]

ghost use Rattle.std.specs.Prelude.{length};
ghost use Rattle.letters.specs.Algebra.{xors};
ghost use Rattle.group.specs.Ranges.{group_of};
ghost use Rattle.preview_product.specs.Preview.{preview_letters};
ghost use Rattle.preview_packets.specs.Calls.{preview_encode_refusal};
ghost use Rattle.layout.specs.Share.{share_of};
ghost use Rattle.heads.specs.Heads.{heads};
ghost use Rattle.share.specs.Calls.{write_refusal, preview_head};
ghost use Rattle.c_answers.specs.Exports.{Fills};

// A node's packet from the file. Refusals: 1, 2, 3, 5 for the file, 6 for the packet.
// C hands numbers over one by one.
#[unsafe(no_mangle)]
pub extern "C" fn dulvaspen_preview_encode(
    n: usize,
    k: usize,
    l: usize,
    node: usize,
    file: &[u8],
    packet: &mut [u8],
) -> usize
    ensures { Fills (preview_encode_refusal (group_of n k 0 l) node (length file.now) (length packet.old)) (preview_letters xors (group_of n k 0 l) file.now node) packet.old packet.new result }
{
    let g = group::of(n, k, 0, l);
    group::answer_number(preview_packets::encoding::encode(g, node, file, packet))
}

// A node's packet of previews as a share. Refusals: 1, 2, 3, 5 for the packet, 6 for the share.
#[unsafe(no_mangle)]
pub extern "C" fn dulvaspen_preview_write_share(
    n: usize,
    k: usize,
    l: usize,
    node: usize,
    batch: u32,
    packet: &[u8],
    share: &mut [u8],
) -> usize
    ensures { Fills (write_refusal (preview_head (group_of n k 0 l) node batch) (length packet.now) (length share.old)) (share_of heads (preview_head (group_of n k 0 l) node batch) packet.now) share.old share.new result }
{
    let g = group::of(n, k, 0, l);
    group::answer_number(share::write_preview(g, node, batch, packet, share))
}
