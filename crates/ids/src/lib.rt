// Lists of ids: how many there are, in range, strictly falling, and whether a node is among them.
#![tactic(auto)]

ghost use Rattle.std.specs.Prelude.{◌≡◌};
ghost use Rattle.group.specs.Answers.{check_number};
ghost use Rattle.ids.specs.Ids.{ids_refusal, all_in_range, falling, among};

use group::{Group, Refusal};

// Every id is one of 1..n.
pub fn all_in_range(ids: &[usize], n: usize) -> bool
    ensures { result ≡ all_in_range n ids.now }
{
    for id in ids {
        if *id < 1 {
            return false;
        }
        if n < *id {
            return false;
        }
    }
    true
}

// Each id is below the one before it.
pub fn strictly_falling(ids: &[usize]) -> bool
    ensures { result ≡ falling ids.now }
{
    for i in 1..ids.len() {
        if ids[i - 1] <= ids[i] {
            return false;
        }
    }
    true
}

// `node` is one of the ids.
pub fn is_among(node: usize, ids: &[usize]) -> bool
    ensures { result ≡ among node ids.now }
{
    ids.contains(&node)
}

// A list of ids that must be `wanted` many: refusal 3, and then 4.
pub fn check(g: Group, wanted: usize, ids: &[usize]) -> Result<(), Refusal>
    ensures { check_number result ≡ ids_refusal g wanted ids.now }
{
    if ids.len() != wanted {
        return Err(Refusal::Ids);
    }
    if !all_in_range(ids, g.n) {
        return Err(Refusal::Ids);
    }
    if !strictly_falling(ids) {
        return Err(Refusal::Order);
    }
    Ok(())
}
