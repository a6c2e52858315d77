// A group of previews: what its numbers may be, and every length that follows from them.
#![tactic(auto)]

pub mod checks;
pub mod known;

ghost use Rattle.group.specs.Answers.{Answers};
ghost use Rattle.preview_numbers.specs.Previews.{preview_group_refusal, preview_node_refusal, preview_file, preview_packet};

use group::{Group, Refusal};
use known::Member;

// The letters of a file of previews, k*L. Refusals: 1, 2. (Beside `lengths::file_letters`, with other ranges and another length: two lines each.)
pub fn file_letters(g: Group) -> Result<usize, Refusal>
    ensures { Answers result (preview_group_refusal g) (preview_file g) }
{
    checks::group(g)?;
    Ok(known::file(g))
}

// The letters of a node's packet, L + t(i,k). Refusals: 1, 2, 3.
pub fn packet_letters(g: Group, node: usize) -> Result<usize, Refusal>
    ensures { Answers result (preview_node_refusal g node) (preview_packet g node) }
{
    checks::node(g, node)?;
    Ok(Member { g, node }.packet())
}
