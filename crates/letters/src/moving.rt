// Letters copied from one buffer to another, and cleared.
ghost use Rattle.std.specs.Prelude.{◌+◌, ◌-◌, ◌≤◌, length, get_or};
ghost use Rattle.letters.specs.Laid.{Laid};

// Copies `count` letters that start at index `start` of `from` to index `at` of `to`, whose other letters stay as they were.
// (Indices and a count, no slices: the contract says what the whole of `to` then holds.)
pub fn copy(from: &[u8], start: usize, to: &mut [u8], at: usize, count: usize)
    requires { (start + count ≤ length from.now) × (at + count ≤ length to.old) }
    ensures { Laid to.old to.new at (at + count) (λ p. get_or from.now (start + (p - at)) 0) }
{
    // Not copy_from_slice: where the letters are a local block's, the compiler then asks at every call whether it overlaps `to`.
    for i in 0..count {
        to[at + i] = from[start + i];
    }
}

// Sets the letters from index `at` up to `end` to zero. The others stay as they were.
pub fn clear(to: &mut [u8], at: usize, end: usize)
    requires { (at ≤ end) × (end ≤ length to.old) }
    ensures { Laid to.old to.new at end (λ p. 0) }
{
    to[at..end].fill(0);
}
