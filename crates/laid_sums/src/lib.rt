// A sum of several runs of one buffer laid into another, in one pass: each letter of the sum is written once, and nothing is cleared first.
#![tactic(auto)]

mod apart;

ghost use Rattle.std.specs.Prelude.{length};
ghost use Rattle.letters.specs.Laid.{Laid};
ghost use Rattle.sums.specs.Sums.{sum_at, RunsInside};

use sums::sources;

// Fills `into` with the sum of the runs of `from` that start at these indices, as long as `into` each.
pub fn lay(into: &mut [u8], from: &[u8], starts: &[usize])
    requires { RunsInside starts.now (length starts.now) (length into.old) (length from.now) }
    ensures { Laid into.old into.new 0 (length into.old) (sum_at from.now starts.now (length starts.now)) }
{
    if into.len() < sums::BLOCK {
        apart::lay_letters(into, from, starts);
        return;
    }
    let first = into.len() % sums::BLOCK;
    let block = sources::block(from, starts, 0);
    letters::moving::copy(&block, 0, into, 0, first);
    apart::lay_blocks(into, from, starts, first);
}
