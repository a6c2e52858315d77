// A block of a buffer's letters added into others of the same buffer, wherever they lie.
ghost use Rattle.std.specs.Prelude.{◌≡◌, ◌+◌, ◌≤◌, length, take, drop};
ghost use Rattle.letters.specs.Algebra.{xors};
ghost use Rattle.letters.specs.Runs.{added};
ghost use Rattle.letters.specs.Steps.Rests.{widest_block};

use adding::eights;

// Adds the `count` letters that start at index `from` into those that start at index `to`. They are taken first: so they may overlap those that they are added to.
pub fn add_block(buffer: &mut [u8], to: usize, from: usize, count: usize)
    requires { (count ≤ widest_block) × (to + count ≤ length buffer.old) × (from + count ≤ length buffer.old) }
    ensures { buffer.new ≡ added xors buffer.old to (take count (drop from buffer.old)) }
{
    let block = eights::taken(buffer, from, count);
    eights::add_letters(buffer, to, &block, 0, count);
}
