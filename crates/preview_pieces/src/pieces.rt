// The pieces that k nodes of previews send, and where the collector puts them.
ghost use Rattle.std.specs.Prelude.{◌≡◌, ◌≤◌};
ghost use Rattle.group.specs.Answers.{check_number};
ghost use Rattle.preview_numbers.specs.Previews.{PreviewNode};
ghost use Rattle.preview_pieces.specs.Calls.{PreviewHanded, PreviewStarting, PreviewPlaced, preview_entry_refusal};

use group::{Group, Refusal};
use preview_numbers::known::Member;

// What `node` sends as `rank`: that part of its packet, letters t(i,v)+1 .. t(i,v)+L, uncopied.
// The empty part means refused (L >= 1); `piece_start` tells by which number.
pub fn piece<'a>(g: Group, node: usize, rank: usize, packet: &'a [u8]) -> &'a [u8]
    ensures { PreviewHanded g node rank packet.entry result }
{
    let start = piece_start(g, node, rank, packet.len());
    handing::part(start, g.l, packet)
}

// The companion of `piece`, handed how many letters the packet has: the index at which the piece starts in it, or the refusal.
// Refusals: 1, 2, 3 for the node or for a rank outside 1..k, 5 for a packet of another length.
pub fn piece_start(g: Group, node: usize, rank: usize, held: usize) -> Result<usize, Refusal>
    ensures { PreviewStarting g node rank held result }
{
    preview_numbers::checks::node(g, node)?;
    start_of_node(Member { g, node }, rank, held)
}

// The same for a node of the group.
fn start_of_node(of: Member, rank: usize, held: usize) -> Result<usize, Refusal>
    ensures { PreviewStarting of.g of.node rank held result }
{
    group_checks::one_of(rank, of.g.k)?;
    start_of_rank(of, rank, held)
}

// The same for a rank that fits.
fn start_of_rank(of: Member, rank: usize, held: usize) -> Result<usize, Refusal>
    requires { (1 ≤ rank) × (rank ≤ of.g.k) }
    ensures { PreviewStarting of.g of.node rank held result }
{
    let wanted = of.packet();
    if held != wanted {
        return Err(Refusal::Input);
    }
    Ok(shifts::preview_shift(of.node, rank))
}

// Where the collector puts the piece of this rank: the index at which sequence v starts in its buffer, which is laid out as the file. Refusals: 1, 2, 3.
pub fn entry(g: Group, rank: usize) -> Result<usize, Refusal>
    ensures { PreviewPlaced g rank result }
{
    check_entry(g, rank)?;
    Ok((rank - 1) * g.l)
}

// A group and a rank: refusals 1, 2, 3.
fn check_entry(g: Group, rank: usize) -> Result<(), Refusal>
    ensures { check_number result ≡ preview_entry_refusal g rank }
{
    preview_numbers::checks::group(g)?;
    group_checks::one_of(rank, g.k)
}
