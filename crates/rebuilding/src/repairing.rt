// Repair: a lost node's packets from the pieces of d helpers.
ghost use Rattle.std.specs.Prelude.{◌≡◌};
ghost use Rattle.group.specs.Answers.{check_number};
ghost use Rattle.group.specs.Ranges.{NodeOf};
ghost use Rattle.rebuilding.specs.Calls.{apart_refusal, helpers_refusal, Repaired};
ghost use Rattle.rebuilding.specs.Steps.Checked.{Helpers};

use group::{Group, Refusal};
use lengths::known::Member;
use sequences::rows::{self, Tabled};

// Turns the d pieces in `buffer`, L' letters each, one after another in the helpers' order, into the lost node's d packets, in place.
// For letters that no honest helpers send, that is the one solution of the d equations. The answer is how many letters that aren't zero it takes to add:
// the terms of document 01's sum whose letter isn't zero in the packets that come out.
// Refusals: 1, 2, 3 for an id outside 1..n or another number of helpers than d, 4 for helpers that don't fall strictly or have the lost
// node among them, 5 for a buffer of another length than d*L'. A refused call leaves `buffer` as it was.
pub fn repair(g: Group, lost: usize, helpers: &[usize], buffer: &mut [u8]) -> Result<usize, Refusal>
    ensures { Repaired g lost helpers.now buffer.old buffer.new result }
{
    check_helpers(g, lost, helpers)?;
    repair_exact(g, lost, helpers, buffer)
}

// The group, the lost node and its helpers: refusals 1 to 4.
fn check_helpers(g: Group, lost: usize, helpers: &[usize]) -> Result<(), Refusal>
    ensures { check_number result ≡ helpers_refusal g lost helpers.now }
{
    group_checks::node(g, lost)?;
    check_others(g, lost, helpers)
}

// The helpers: refusals 3 and 4.
fn check_others(g: Group, lost: usize, helpers: &[usize]) -> Result<(), Refusal>
    requires { NodeOf g lost }
    ensures { check_number result ≡ helpers_refusal g lost helpers.now }
{
    ids::check(g, g.d, helpers)?;
    check_apart(lost, helpers)
}

// The lost node is none of them: else refusal 4.
fn check_apart(lost: usize, helpers: &[usize]) -> Result<(), Refusal>
    ensures { check_number result ≡ apart_refusal lost helpers.now }
{
    if ids::is_among(lost, helpers) {
        return Err(Refusal::Order);
    }
    Ok(())
}

// The same once these are right: refusal 5, and then the solver has the whole buffer.
fn repair_exact(
    g: Group,
    lost: usize,
    helpers: &[usize],
    buffer: &mut [u8],
) -> Result<usize, Refusal>
    requires { Helpers g lost helpers.now }
    ensures { Repaired g lost helpers.now buffer.old buffer.new result }
{
    let lost_one = Member { g, node: lost };
    let wanted = lost_one.repair_buffer();
    if buffer.len() != wanted {
        return Err(Refusal::Input);
    }
    let n = lost_one.repair_letters();
    let table = shifts::all();
    let rows = rows::of(&Tabled { table: &table }, helpers);
    Ok(solving::solve_counted(buffer, g.d, n, &rows))
}
