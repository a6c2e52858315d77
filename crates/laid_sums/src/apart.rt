// The sum laid into another buffer.
ghost use Rattle.std.specs.Prelude.{◌≡◌, length};
ghost use Rattle.letters.specs.Laid.{Laid};
ghost use Rattle.letters.specs.Steps.Rests.{widest_block, left_over};
ghost use Rattle.sums.specs.Sums.{sum_at, RunsInside};

use adding::eights;
use sums::sources;

// The letters from index `start` on, in blocks; `start` is what blocks leave over.
pub fn lay_blocks(into: &mut [u8], from: &[u8], starts: &[usize], start: usize)
    requires { (RunsInside starts.now (length starts.now) (length into.old) (length from.now)) × (start ≡ left_over (length into.old) widest_block) }
    ensures { Laid into.old into.new start (length into.old) (sum_at from.now starts.now (length starts.now)) }
{
    // No `for` over the blocks: with it each of several runs' blocks takes three instructions more.
    let mut at = start;
    while at < into.len() {
        let block = sources::block(from, starts, at);
        letters::moving::copy(&block, 0, into, at, eights::WIDEST);
        at += eights::WIDEST;
    }
}

// All letters, one by one.
pub fn lay_letters(into: &mut [u8], from: &[u8], starts: &[usize])
    requires { RunsInside starts.now (length starts.now) (length into.old) (length from.now) }
    ensures { Laid into.old into.new 0 (length into.old) (sum_at from.now starts.now (length starts.now)) }
{
    for at in 0..into.len() {
        into[at] = sources::letter(from, starts, at);
    }
}
