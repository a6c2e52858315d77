// Every length that follows from a group's numbers: of a file, of a node, of a packet and of what a helper sends.
#![tactic(auto)]

pub mod known;

ghost use Rattle.group.specs.Answers.{Answers};
ghost use Rattle.group.specs.Ranges.{group_refusal, node_refusal};
ghost use Rattle.lengths.specs.Lengths.{file_letters, node_letters, repair_letters};

use group::{Group, Refusal};
use known::{Known, Member};

// The letters of a file, B*L. Refusals: 1, 2.
pub fn file_letters(g: Group) -> Result<usize, Refusal>
    ensures { Answers result (group_refusal g) (file_letters g) }
{
    group_checks::group(g)?;
    Ok(Known { g }.file())
}

// The letters that a node holds, T: its d packets one after another. Refusals: 1, 2, 3.
pub fn packet_letters(g: Group, node: usize) -> Result<usize, Refusal>
    ensures { Answers result (node_refusal g node) (node_letters g node) }
{
    group_checks::node(g, node)?;
    Ok(Member { g, node }.letters())
}

// The letters of the piece that a helper sends for the lost node, L'. Refusals: 1, 2, 3.
pub fn repair_letters(g: Group, lost: usize) -> Result<usize, Refusal>
    ensures { Answers result (node_refusal g lost) (repair_letters g lost) }
{
    group_checks::node(g, lost)?;
    Ok(Member { g, node: lost }.repair_letters())
}
