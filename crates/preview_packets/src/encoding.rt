// Encoding a preview: a node's one packet from the file.
ghost use Rattle.preview_numbers.specs.Previews.{PreviewNode};
ghost use Rattle.preview_packets.specs.Calls.{PreviewEncoded};

use crate::laying;
use group::{Group, Refusal};
use preview_numbers::known::Member;

// Fills `packet` with the packet of `node`: letter p is the sum over the k sequences u of the file of letter p - t(i,u).
// `file` has exactly k*L letters (else 5) and `packet` exactly L + t(i,k) (else 6); refusals 1, 2 and 3 come before.
// A refused call leaves `packet` as it was.
pub fn encode(g: Group, node: usize, file: &[u8], packet: &mut [u8]) -> Result<usize, Refusal>
    ensures { PreviewEncoded g node file.now packet.old packet.new result }
{
    preview_numbers::checks::node(g, node)?;
    encode_exact(Member { g, node }, file, packet)
}

// The same for a node of a group in range: refusals 5 and 6.
fn encode_exact(of: Member, file: &[u8], packet: &mut [u8]) -> Result<usize, Refusal>
    ensures { PreviewEncoded of.g of.node file.now packet.old packet.new result }
{
    let wanted = preview_numbers::known::file(of.g);
    let size = of.packet();
    group_checks::lengths(file.len(), wanted, packet.len(), size)?;
    laying::encode_packet(of, file, packet);
    Ok(0)
}
