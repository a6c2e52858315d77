// The checks that calls share. Each answers `Fine`, or the lowest refusal that applies to what it is handed.
#![tactic(auto)]

ghost use Rattle.std.specs.Prelude.{◌≡◌, eqb};
ghost use Rattle.group.specs.Answers.{check_number, first, unless, refusal_number};
ghost use Rattle.group.specs.Ranges.{between, group_refusal, node_refusal, id_refusal, numbers_in_range, length_in_range};

use group::{Group, Refusal};

// A number is one of low..high.
pub fn is_between(low: usize, high: usize, number: usize) -> bool
    ensures { result ≡ between low high number }
{
    (low..=high).contains(&number)
}

// n is 3 to 16, and 2 <= k <= d <= n-1.
pub fn numbers_in_range(g: Group) -> bool
    ensures { result ≡ numbers_in_range g }
{
    if !is_between(3, 16, g.n) {
        return false;
    }
    if !is_between(2, g.d, g.k) {
        return false;
    }
    g.d <= g.n - 1
}

// The most letters in a sequence.
pub const LONGEST: usize = 1048576;

// L is one of 1..LONGEST.
pub fn length_in_range(g: Group) -> bool
    ensures { result ≡ length_in_range g }
{
    is_between(1, LONGEST, g.l)
}

// The group's own numbers: refusals 1 and 2.
pub fn group(g: Group) -> Result<(), Refusal>
    ensures { check_number result ≡ group_refusal g }
{
    if !numbers_in_range(g) {
        return Err(Refusal::Numbers);
    }
    if !length_in_range(g) {
        return Err(Refusal::Length);
    }
    Ok(())
}

// A number is one of 1..most: else refusal 3.
pub fn one_of(number: usize, most: usize) -> Result<(), Refusal>
    ensures { check_number result ≡ unless (between 1 most number) 3 }
{
    if is_between(1, most, number) {
        return Ok(());
    }
    Err(Refusal::Ids)
}

// One id: refusal 3.
pub fn id(g: Group, id: usize) -> Result<(), Refusal>
    ensures { check_number result ≡ id_refusal g id }
{
    one_of(id, g.n)
}

// A group and one of its nodes: refusals 1, 2 and 3.
pub fn node(g: Group, node: usize) -> Result<(), Refusal>
    ensures { check_number result ≡ node_refusal g node }
{
    group(g)?;
    id(g, node)
}

// A lent slice has exactly the wanted length; else the refusal that the caller names, 5 or 6.
pub fn exact(length: usize, wanted: usize, refusal: Refusal) -> Result<(), Refusal>
    ensures { check_number result ≡ unless (eqb length wanted) (refusal_number refusal) }
{
    if length == wanted {
        return Ok(());
    }
    Err(refusal)
}

// A lent input of exactly one length and a lent output of exactly another: refusals 5 and 6.
pub fn lengths(
    input: usize,
    wanted_in: usize,
    output: usize,
    wanted_out: usize,
) -> Result<(), Refusal>
    ensures { check_number result ≡ first (unless (eqb input wanted_in) 5) (unless (eqb output wanted_out) 6) }
{
    if input != wanted_in {
        return Err(Refusal::Input);
    }
    exact(output, wanted_out, Refusal::Output)
}
