// Whole blocks that are the same.
ghost use Rattle.std.specs.Prelude.{◌≡◌, true, ℕ, ◌+◌, ◌≤◌, ◌<◌, length, get_or};
ghost use Rattle.letters.specs.Steps.Rests.{widest_block};
ghost use Rattle.sums.specs.Sums.{sum_at, RunsInside};
ghost use Rattle.matching.specs.Same.{SameTo, SamePart};

use adding::eights;
use sums::sources as summing;

// The first `count` letters of a block are those of `held` from index `at` on. A byte counts them, so that the compiler compares sixteen at once.
pub fn equal(block: &[u8], held: &[u8], at: usize, count: usize) -> bool
    requires { (count ≤ 255) × (count ≤ length block.now) × (at + count ≤ length held.now) }
    ensures { result ≡ true → (q : ℕ) → q < count → get_or held.now (at + q) 0 ≡ get_or block.now q 0 }
{
    let mut same: u8 = 0;
    for i in 0..count {
        if held[at + i] == block[i] {
            same += 1;
        }
    }
    same as usize == count
}

// The block of `held` at index `at` is that of the sum. Where it isn't, or only its last letter isn't, the answer is no.
fn same_block(held: &[u8], from: &[u8], starts: &[usize], at: usize) -> bool
    requires { (RunsInside starts.now (length starts.now) (length held.now) (length from.now)) × (at + widest_block ≤ length held.now) }
    ensures { result ≡ true → SamePart held.now (sum_at from.now starts.now (length starts.now)) at (at + widest_block) }
{
    let block = summing::block(from, starts, at);
    equal(&block, held, at, eights::WIDEST)
}

// The letters up to here are the same: in whole blocks up to the first that isn't the same.
fn same_front(held: &[u8], from: &[u8], starts: &[usize]) -> usize
    requires { RunsInside starts.now (length starts.now) (length held.now) (length from.now) }
    ensures { SameTo held.now (sum_at from.now starts.now (length starts.now)) result }
{
    let whole = held.len() / eights::WIDEST;
    for b in 0..whole {
        if !same_block(held, from, starts, b * eights::WIDEST) {
            return b * eights::WIDEST;
        }
    }
    whole * eights::WIDEST
}

// The same, and what is left after the last whole block is looked at as the end of a block that begins before it.
pub fn same_blocks(held: &[u8], from: &[u8], starts: &[usize]) -> usize
    requires { RunsInside starts.now (length starts.now) (length held.now) (length from.now) }
    ensures { SameTo held.now (sum_at from.now starts.now (length starts.now)) result }
{
    let at = same_front(held, from, starts);
    let count = held.len();
    if count < eights::WIDEST {
        return at;
    }
    if eights::WIDEST <= count - at {
        return at;
    }
    if same_block(held, from, starts, count - eights::WIDEST) {
        return count;
    }
    at
}
