// What a helper makes for a lost node.
ghost use Rattle.std.specs.Prelude.{◌≡◌};
ghost use Rattle.group.specs.Answers.{check_number};
ghost use Rattle.group.specs.Ranges.{NodeOf};
ghost use Rattle.helpers.specs.Calls.{helper_refusal, Helped};
ghost use Rattle.helper_sums.specs.Steps.Checked.{Helper};

use group::{Group, Refusal};
use helper_sums::Helping;
use lengths::known::Member;

// Fills `piece` with what the helper of this rank sends for the lost node: letters t(h,u)+1 .. t(h,u)+L' of r, the sum of its packets
// each moved right by the lost node's shift. `packets` has exactly the helper's T letters (else 5) and `piece` exactly L' (else 6).
// Before that: 1, 2, 3 for an id outside 1..n or a rank outside 1..d, 4 for a helper that is the lost node.
// A refused call leaves `piece` as it was.
// (What is asked comes one by one, here and in the inner functions: README.md names the call, and nothing is known of it before it is checked, which `Helping` then holds.)
pub fn help(
    g: Group,
    lost: usize,
    helper: usize,
    rank: usize,
    packets: &[u8],
    piece: &mut [u8],
) -> Result<usize, Refusal>
    ensures { Helped g lost helper rank packets.now piece.old piece.new result }
{
    check_helper(g, lost, helper, rank)?;
    help_exact(g, lost, helper, rank, packets, piece)
}

// The group, the two nodes and the rank: refusals 1 to 4.
fn check_helper(g: Group, lost: usize, helper: usize, rank: usize) -> Result<(), Refusal>
    ensures { check_number result ≡ helper_refusal g lost helper rank }
{
    group_checks::node(g, lost)?;
    check_other(g, lost, helper, rank)
}

// The helper and its rank: refusals 3 and 4.
fn check_other(g: Group, lost: usize, helper: usize, rank: usize) -> Result<(), Refusal>
    requires { NodeOf g lost }
    ensures { check_number result ≡ helper_refusal g lost helper rank }
{
    if helper < 1 {
        return Err(Refusal::Ids);
    }
    if g.n < helper {
        return Err(Refusal::Ids);
    }
    if rank < 1 {
        return Err(Refusal::Ids);
    }
    if g.d < rank {
        return Err(Refusal::Ids);
    }
    if helper == lost {
        return Err(Refusal::Order);
    }
    Ok(())
}

// The same once these are right: refusals 5 and 6.
fn help_exact(
    g: Group,
    lost: usize,
    helper: usize,
    rank: usize,
    packets: &[u8],
    piece: &mut [u8],
) -> Result<usize, Refusal>
    requires { Helper g lost helper rank }
    ensures { Helped g lost helper rank packets.now piece.old piece.new result }
{
    let table = shifts::all();
    let size = Member { g, node: helper }.widened_in(&table);
    let wanted = Member { g, node: lost }.widened_in(&table);
    group_checks::lengths(packets.len(), g.d * size, piece.len(), wanted)?;
    let helping = Helping {
        g,
        lost,
        helper,
        rank,
        size,
        table: &table,
        packets,
    };
    helping.sum_packets(piece);
    Ok(0)
}
