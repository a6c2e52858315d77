// A block of letters taken from one buffer and laid into another.
ghost use Rattle.std.specs.Prelude.{◌+◌, ◌-◌, ◌≤◌, length, get_or};
ghost use Rattle.letters.specs.Laid.{Laid};
ghost use Rattle.records.specs.Records.{block_letters};
ghost use Rattle.block_letters.specs.Steps.Blocks.{TakenFrom};

use letters::moving;
use records::sizes;

// The bytes of a block that start at index `start`.
fn block_at(from: &[u8], start: usize) -> [u8; sizes::BLOCK_LETTERS]
    requires { start + block_letters ≤ length from.now }
    ensures { TakenFrom from.now start block_letters result }
{
    let mut block = [0u8; sizes::BLOCK_LETTERS];
    // Not copy_from_slice: with it the letters go through memory once more, and a block takes 43 instructions in place of 10.
    for i in 0..sizes::BLOCK_LETTERS {
        block[i] = from[start + i];
    }
    block
}

// Copies a block's letters as `moving::copy` does. They are taken first and laid then, since so the compiler moves them in a few wide steps: it can't see
// that two buffers don't overlap.
pub fn copy_block(from: &[u8], start: usize, to: &mut [u8], at: usize)
    requires { (start + block_letters ≤ length from.now) × (at + block_letters ≤ length to.old) }
    ensures { Laid to.old to.new at (at + block_letters) (λ p. get_or from.now (start + (p - at)) 0) }
{
    let block = block_at(from, start);
    moving::copy(&block, 0, to, at, sizes::BLOCK_LETTERS);
}
