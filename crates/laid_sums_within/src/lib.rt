// A sum of several runs laid into the buffer that they are runs of, in one pass.
#![tactic(auto)]

mod within;

ghost use Rattle.std.specs.Prelude.{◌+◌, ◌-◌, length};
ghost use Rattle.letters.specs.Laid.{Laid};
ghost use Rattle.sums.specs.Sums.{sum_at, RunsInside, NoneBefore};

use sums::sources;

// Within one buffer `count` letters from index `to` on become the sum of as long runs that start at `to` or later. A run that starts at `to` is what stood there.
// (The runs lie in the buffer that is written: a value of them would hold it lent to write, and each function would ask of it what it asks now.)
pub fn lay_within(buffer: &mut [u8], to: usize, starts: &[usize], count: usize)
    requires { (RunsInside starts.now (length starts.now) count (length buffer.old)) × (NoneBefore starts.now (length starts.now) to) }
    ensures { Laid buffer.old buffer.new to (to + count) (λ p. sum_at buffer.old starts.now (length starts.now) (p - to)) }
{
    if count < sums::BLOCK {
        within::lay_letters(buffer, to, starts, count);
        return;
    }
    let first = count % sums::BLOCK;
    let block = sources::block(buffer, starts, 0);
    letters::moving::copy(&block, 0, buffer, to, first);
    within::lay_blocks(buffer, to, starts, count, first);
}
