// The pieces that k nodes send for a recovery, and where the collector puts them.
ghost use Rattle.std.specs.Prelude.{◌≡◌, ◌+◌, ◌-◌};
ghost use Rattle.group.specs.Answers.{check_number};
ghost use Rattle.group.specs.Ranges.{NodeOf};
ghost use Rattle.sending.specs.Calls.{Handed, Starting, Placed, place_refusal, entry_refusal};
ghost use Rattle.matrix.specs.Matrix.{Free};

use group::{Group, Refusal};
use lengths::known::Member;
use matrix::entries;

// What `node` sends as `rank` of `column`: that part of its packets, letters t(i,v)+1 .. t(i,v)+L of packet u, uncopied.
// The empty part means refused (L >= 1); `piece_start` tells by which number.
pub fn piece<'a>(g: Group, node: usize, rank: usize, column: usize, packets: &'a [u8]) -> &'a [u8]
    ensures { Handed g node rank column packets.entry result }
{
    let start = piece_start(g, node, rank, column, packets.len());
    handing::part(start, g.l, packets)
}

// The companion of `piece`, handed how many letters the packets have: the index at which the piece starts in them, or the refusal.
// Refusals: 1, 2, 3 for the node, for a rank outside 1..k or a column outside rank..d, 5 for packets of another length.
pub fn piece_start(
    g: Group,
    node: usize,
    rank: usize,
    column: usize,
    held: usize,
) -> Result<usize, Refusal>
    ensures { Starting g node rank column held result }
{
    group_checks::node(g, node)?;
    start_of_node(Member { g, node }, rank, column, held)
}

// The same for a node of the group.
fn start_of_node(of: Member, rank: usize, column: usize, held: usize) -> Result<usize, Refusal>
    ensures { Starting of.g of.node rank column held result }
{
    check_place(of.g, rank, column)?;
    start_of_place(of, rank, column, held)
}

// The same for a rank and a column that fit.
fn start_of_place(of: Member, rank: usize, column: usize, held: usize) -> Result<usize, Refusal>
    requires { Free of.g rank column }
    ensures { Starting of.g of.node rank column held result }
{
    let wanted = of.letters();
    if held != wanted {
        return Err(Refusal::Input);
    }
    let start = of.packet_start(column);
    Ok(start + shifts::shift(of.node, rank))
}

// A rank is one of 1..k and its column one of rank..d: else refusal 3.
fn check_place(g: Group, rank: usize, column: usize) -> Result<(), Refusal>
    ensures { check_number result ≡ place_refusal g rank column }
{
    if rank < 1 {
        return Err(Refusal::Ids);
    }
    if g.k < rank {
        return Err(Refusal::Ids);
    }
    if column < rank {
        return Err(Refusal::Ids);
    }
    if g.d < column {
        return Err(Refusal::Ids);
    }
    Ok(())
}

// Where the collector puts the piece of this rank and column: the index at which entry (rank, column) starts in its buffer,
// which is laid out as the file. Refusals: 1, 2, 3.
pub fn entry(g: Group, rank: usize, column: usize) -> Result<usize, Refusal>
    ensures { Placed g rank column result }
{
    check_entry(g, rank, column)?;
    Ok(entries::free_start(g, rank, column))
}

// A group and an entry of its matrix: refusals 1, 2, 3.
fn check_entry(g: Group, rank: usize, column: usize) -> Result<(), Refusal>
    ensures { check_number result ≡ entry_refusal g rank column }
{
    group_checks::group(g)?;
    check_place(g, rank, column)
}
