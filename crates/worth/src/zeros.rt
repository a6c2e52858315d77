// The zeros of a run, counted in blocks as letters are added: the odd letters first, one by one, then a block of 8, 16, 32 and 64 where there is one, and then blocks of 128.
// In a block of so many letters a byte can count the zeros, so that the compiler counts sixteen letters at once.
ghost use Rattle.std.specs.Prelude.{◌+◌, ◌≤◌, ◌<◌, length};
ghost use Rattle.letters.specs.Steps.Rests.{widest_block, left_over};
ghost use Rattle.worth.specs.Steps.Zeros.{Zeros};

use adding::eights;

// All of them, of letters that are no more than a byte can count.
fn in_few(letters: &[u8]) -> usize
    requires { length letters.now ≤ 255 }
    ensures { Zeros letters.now 0 (length letters.now) result }
{
    let mut zeros: u8 = 0;
    for letter in letters {
        if *letter == 0 {
            zeros += 1;
        }
    }
    usize::from(zeros)
}

// Of the letters, `zeros` are among those that blocks of `width` leave over. The answer is how many there are among those that blocks twice as wide leave over:
// as many letters, or a block more.
fn in_rest(letters: &[u8], width: usize, zeros: usize) -> usize
    requires width { (0 < width) × (width ≤ widest_block) }
    requires zeros { Zeros letters.now 0 (left_over (length letters.now) width) zeros }
    ensures { Zeros letters.now 0 (left_over (length letters.now) (width + width)) result }
{
    let count = letters.len();
    if count % (width + width) < width {
        return zeros;
    }
    let first = count % width;
    zeros + in_few(&letters[first..first + width])
}

// Those among the letters that the widest blocks leave over.
pub fn in_rests(letters: &[u8]) -> usize
    ensures { Zeros letters.now 0 (left_over (length letters.now) widest_block) result }
{
    let mut zeros = in_few(&letters[..letters.len() % 8]);
    zeros = in_rest(letters, 8, zeros);
    zeros = in_rest(letters, 16, zeros);
    zeros = in_rest(letters, 32, zeros);
    in_rest(letters, 64, zeros)
}

// All of them, where `rests` are among the letters that the widest blocks leave over.
pub fn in_blocks(letters: &[u8], rests: usize) -> usize
    requires { Zeros letters.now 0 (left_over (length letters.now) widest_block) rests }
    ensures { Zeros letters.now 0 (length letters.now) result }
{
    let mut zeros = rests;
    let first = letters.len() % eights::WIDEST;
    for b in 0..letters.len() / eights::WIDEST {
        let at = first + b * eights::WIDEST;
        zeros += in_few(&letters[at..at + eights::WIDEST]);
    }
    zeros
}
