// Run addition within one buffer, into later letters: they may overlap those that are added.
#![tactic(auto)]

mod blocks;

ghost use Rattle.std.specs.Prelude.{◌+◌, ◌≤◌, length};
ghost use Rattle.letters.specs.Laid.{Laid};
ghost use Rattle.adding_after.specs.Added.{plus_from};

// Adds `count` letters of `buffer` that start at index `from` into the later letters that start at index `to`: as they came, even where the two runs overlap.
// Every other letter stays as it was. The runs must fit: from <= to and to + count <= buffer.len().
// (Indices and a count, no slices: two runs of one buffer that overlap can't be lent as two slices.)
pub fn add_after(buffer: &mut [u8], to: usize, from: usize, count: usize)
    requires { (from ≤ to) × (to + count ≤ length buffer.old) }
    ensures { Laid buffer.old buffer.new to (to + count) (plus_from buffer.old to from) }
{
    let left = blocks::add_rests(buffer, to, from, count);
    blocks::add_blocks(buffer, to, from, left);
}
