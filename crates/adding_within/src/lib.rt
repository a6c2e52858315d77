// Run addition within one buffer: letters of it added into earlier ones.
#![tactic(auto)]

pub mod blocks;

ghost use Rattle.std.specs.Prelude.{◌≡◌, ◌+◌, ◌≤◌, length, take, drop};
ghost use Rattle.letters.specs.Algebra.{xors};
ghost use Rattle.letters.specs.Runs.{added};

// Adds `count` letters of `buffer` that start at index `from` into the earlier letters that start at index `to`.
// Every other letter stays as it was. The answer is how many letters were added, whatever they are.
// The two runs must not overlap, and must fit: to + count <= from and from + count <= buffer.len().
// (Indices and a count, no slices: both are runs of one buffer, and the contract says what the whole of it then holds.)
pub fn add_within(buffer: &mut [u8], to: usize, from: usize, count: usize) -> usize
    requires { (to + count ≤ from) × (from + count ≤ length buffer.old) }
    ensures letters { buffer.new ≡ added xors buffer.old to (take count (drop from buffer.old)) }
    ensures count { result ≡ count }
{
    let (earlier, later) = buffer.split_at_mut(from);
    adding::add_run(earlier, to, &later[..count])
}
