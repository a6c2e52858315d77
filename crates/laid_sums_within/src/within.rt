// The sum laid into the buffer that it is taken from. It goes upwards, and no run starts before the letters that are laid: so what is read still is as it came.
ghost use Rattle.std.specs.Prelude.{◌≡◌, ◌+◌, ◌-◌, length};
ghost use Rattle.letters.specs.Laid.{Laid};
ghost use Rattle.letters.specs.Steps.Rests.{widest_block, left_over};
ghost use Rattle.sums.specs.Sums.{sum_at, RunsInside, NoneBefore};

use adding::eights;
use sums::sources;

// The letters from `start` behind `to` on, in blocks; `start` is what blocks leave over of `count`.
pub fn lay_blocks(buffer: &mut [u8], to: usize, starts: &[usize], count: usize, start: usize)
    requires runs { (RunsInside starts.now (length starts.now) count (length buffer.old)) × (NoneBefore starts.now (length starts.now) to) }
    requires start { start ≡ left_over count widest_block }
    ensures { Laid buffer.old buffer.new (to + start) (to + count) (λ p. sum_at buffer.old starts.now (length starts.now) (p - to)) }
{
    for b in 0..count / eights::WIDEST {
        let at = start + b * eights::WIDEST;
        let block = sources::block(buffer, starts, at);
        letters::moving::copy(&block, 0, buffer, to + at, eights::WIDEST);
    }
}

// All letters, one by one.
pub fn lay_letters(buffer: &mut [u8], to: usize, starts: &[usize], count: usize)
    requires { (RunsInside starts.now (length starts.now) count (length buffer.old)) × (NoneBefore starts.now (length starts.now) to) }
    ensures { Laid buffer.old buffer.new to (to + count) (λ p. sum_at buffer.old starts.now (length starts.now) (p - to)) }
{
    for at in 0..count {
        buffer[to + at] = sources::letter(buffer, starts, at);
    }
}
