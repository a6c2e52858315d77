// Which node is lying: what refuses the question.
#![tactic(auto)]

ghost use Rattle.std.specs.Prelude.{◌≡◌};
ghost use Rattle.group.specs.Answers.{check_number};
ghost use Rattle.odd_checks.specs.Refusals.{present_refusal, lengths_refusal, odd_refusal};

use group::{Group, Refusal};
use lengths::known::Known;

// The group and the ids: 1 to 4. As many ids are wanted as there are.
fn ids_of(g: Group, ids: &[usize]) -> Result<(), Refusal>
    ensures { check_number result ≡ present_refusal g ids.now }
{
    group_checks::group(g)?;
    ids::check(g, ids.len(), ids)
}

// The lengths: 5, 13, and then 6.
fn lengths_of(g: Group, ids: &[usize], packets: usize, file: usize) -> Result<(), Refusal>
    requires { present_refusal g ids.now ≡ 0 }
    ensures { check_number result ≡ lengths_refusal g ids.now packets file }
{
    let starts = present::starts(g, ids);
    let count = ids.len();
    if packets != starts[count] {
        return Err(Refusal::Input);
    }
    if count < g.k + 2 {
        return Err(Refusal::TooFew);
    }
    group_checks::exact(file, Known { g }.file(), Refusal::Output)
}

// Whether `odd_one::find` is refused, handed how many letters the packets have and how many the file has room for.
pub fn check(g: Group, ids: &[usize], packets: usize, file: usize) -> Result<(), Refusal>
    ensures { check_number result ≡ odd_refusal g ids.now packets file }
{
    ids_of(g, ids)?;
    lengths_of(g, ids, packets, file)
}
