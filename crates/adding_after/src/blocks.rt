// Letters of a buffer added into later ones of the same buffer, in blocks as `eights` adds them. It goes downwards, and each block is taken before it is added:
// so what is read still is as it came, even where the two runs overlap. from <= to.
ghost use Rattle.std.specs.Prelude.{◌≡◌, ◌+◌, ◌≤◌, ◌<◌, length};
ghost use Rattle.letters.specs.Laid.{Laid};
ghost use Rattle.adding_after.specs.Added.{plus_from};
ghost use Rattle.letters.specs.Steps.Rests.{widest_block, left_over};

use adding::eights;
use adding_within::blocks;

// Of a run, the first `left` letters are left to add, and blocks of `width` leave nothing over of them. Adds the last block, unless blocks twice as wide leave
// nothing over either. The answer is how many letters are left then.
pub fn add_rest(buffer: &mut [u8], to: usize, from: usize, left: usize, width: usize) -> usize
    requires width { (0 < width) × (width ≤ widest_block) }
    requires lengths { (left_over left width ≡ 0) × (from ≤ to) × (to + left ≤ length buffer.old) }
    ensures letters { Laid buffer.old buffer.new (to + result) (to + left) (plus_from buffer.old to from) }
    ensures left { (result ≤ left) × (left_over result (width + width) ≡ 0) }
{
    if left % (width + width) < width {
        return left;
    }
    let i = left - width;
    blocks::add_block(buffer, to + i, from + i, width);
    i
}

// Adds what eights leave over of the run, its last letters: a block of one, two and four of them at most. The answer is how many letters are left.
pub fn add_odd(buffer: &mut [u8], to: usize, from: usize, count: usize) -> usize
    requires { (from ≤ to) × (to + count ≤ length buffer.old) }
    ensures letters { Laid buffer.old buffer.new (to + result) (to + count) (plus_from buffer.old to from) }
    ensures left { (result ≤ count) × (left_over result 8 ≡ 0) }
{
    let mut i = add_rest(buffer, to, from, count, 1);
    i = add_rest(buffer, to, from, i, 2);
    add_rest(buffer, to, from, i, 4)
}

// Adds what the widest blocks leave over of the run, its last letters. The answer is how many letters are left.
pub fn add_rests(buffer: &mut [u8], to: usize, from: usize, count: usize) -> usize
    requires { (from ≤ to) × (to + count ≤ length buffer.old) }
    ensures letters { Laid buffer.old buffer.new (to + result) (to + count) (plus_from buffer.old to from) }
    ensures left { (result ≤ count) × (left_over result widest_block ≡ 0) }
{
    let mut i = add_odd(buffer, to, from, count);
    i = add_rest(buffer, to, from, i, 8);
    i = add_rest(buffer, to, from, i, 16);
    i = add_rest(buffer, to, from, i, 32);
    add_rest(buffer, to, from, i, 64)
}

// Adds a run of which the widest blocks leave nothing over, the last block first.
pub fn add_blocks(buffer: &mut [u8], to: usize, from: usize, count: usize)
    requires { (left_over count widest_block ≡ 0) × (from ≤ to) × (to + count ≤ length buffer.old) }
    ensures { Laid buffer.old buffer.new to (to + count) (plus_from buffer.old to from) }
{
    for b in (0..count / eights::WIDEST).rev() {
        let i = b * eights::WIDEST;
        blocks::add_block(buffer, to + i, from + i, eights::WIDEST);
    }
}
