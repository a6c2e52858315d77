// The letters of the sum, a block of them or one.
ghost use Rattle.std.specs.Prelude.{◌≡◌, ◌+◌, length};
ghost use Rattle.letters.specs.Steps.Rests.{widest_block};
ghost use Rattle.sums.specs.Sums.{sum_at, RunsInside, BlockOf};

use adding::eights;

// The block of the sum that starts `at` letters behind the runs' starts: the first run's letters are taken, and those of the others added.
// (No value carries `RunsInside` here and in the crates above: how many letters each run must have, every function says of its own index or of the buffer that it lays or compares.)
pub fn block(from: &[u8], starts: &[usize], at: usize) -> [u8; eights::WIDEST]
    requires { RunsInside starts.now (length starts.now) (at + widest_block) (length from.now) }
    ensures { BlockOf from.now starts.now (length starts.now) at result }
{
    let mut block = eights::taken(from, starts[0] + at, eights::WIDEST);
    for start in &starts[1..] {
        eights::add_letters(&mut block, 0, from, *start + at, eights::WIDEST);
    }
    block
}

// The letter of the sum that stands `at` letters behind the runs' starts.
pub fn letter(from: &[u8], starts: &[usize], at: usize) -> u8
    requires { RunsInside starts.now (length starts.now) (at + 1) (length from.now) }
    ensures { result ≡ sum_at from.now starts.now (length starts.now) at }
{
    let mut sum = 0;
    for start in starts {
        sum ^= from[*start + at];
    }
    sum
}
