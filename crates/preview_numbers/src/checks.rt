// The checks of a group of previews. Each answers `Fine`, or the lowest refusal that applies to what it is handed.
ghost use Rattle.std.specs.Prelude.{◌≡◌};
ghost use Rattle.group.specs.Answers.{check_number};
ghost use Rattle.preview_numbers.specs.Previews.{preview_numbers_in_range, preview_length_in_range, preview_group_refusal, preview_node_refusal};

use group::{Group, Refusal};

// n is 3 to 16, 2 <= k <= n, and d is 0.
pub fn numbers_in_range(g: Group) -> bool
    ensures { result ≡ preview_numbers_in_range g }
{
    if !group_checks::is_between(3, 16, g.n) {
        return false;
    }
    if g.k < 2 {
        return false;
    }
    if g.n < g.k {
        return false;
    }
    g.d == 0
}

// The most letters in a sequence of a preview.
pub const LONGEST_PREVIEW: usize = 4096;

// L is one of 1..LONGEST_PREVIEW.
pub fn length_in_range(g: Group) -> bool
    ensures { result ≡ preview_length_in_range g }
{
    group_checks::is_between(1, LONGEST_PREVIEW, g.l)
}

// The group's own numbers: refusals 1 and 2. (Beside `group_checks::group`: the two have the order in common and no test, so one generic function would need more lines than both.)
pub fn group(g: Group) -> Result<(), Refusal>
    ensures { check_number result ≡ preview_group_refusal g }
{
    if !numbers_in_range(g) {
        return Err(Refusal::Numbers);
    }
    if !length_in_range(g) {
        return Err(Refusal::Length);
    }
    Ok(())
}

// A group and one of its nodes: refusals 1, 2 and 3.
pub fn node(g: Group, node: usize) -> Result<(), Refusal>
    ensures { check_number result ≡ preview_node_refusal g node }
{
    group(g)?;
    group_checks::id(g, node)
}
