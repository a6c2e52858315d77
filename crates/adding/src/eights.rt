// Letters added in eights. A block of one to sixteen eights is taken first and added then: so the compiler moves it in a few wide steps and doesn't ask,
// at every call, whether the two buffers overlap, which it can't see that they never do.
ghost use Rattle.std.specs.Prelude.{◌≡◌, ◌+◌, ◌≤◌, ◌<◌, length, take, drop};
ghost use Rattle.letters.specs.Algebra.{xors};
ghost use Rattle.letters.specs.Runs.{added};
ghost use Rattle.letters.specs.Steps.Rests.{widest_block, left_over};

// The letters of the widest block: sixteen eights, which half of the processor's wide registers hold.
pub const WIDEST: usize = 128;

// The `count` letters that start at index `start`, at the front of a block.
// (A start and a count beside the buffer, here and below: `added` says what the whole of `into` then holds, and `adding_within` takes a block from the buffer that it adds to.)
pub fn taken(from: &[u8], start: usize, count: usize) -> [u8; WIDEST]
    requires { (count ≤ widest_block) × (start + count ≤ length from.now) }
    ensures { take count result ≡ take count (drop start from.now) }
{
    let mut block = [0u8; WIDEST];
    block[..count].copy_from_slice(&from[start..start + count]);
    block
}

// Adds the `count` letters of `run` that start at index `start` into `into`, from index `at` on, one by one.
pub fn add_letters(into: &mut [u8], at: usize, run: &[u8], start: usize, count: usize)
    requires { (start + count ≤ length run.now) × (at + count ≤ length into.old) }
    ensures { into.new ≡ added xors into.old at (take count (drop start run.now)) }
{
    for i in 0..count {
        into[at + i] ^= run[start + i];
    }
}

// Adds the same letters, which are taken first. Where `count` is written as a number, no loop is left in what is compiled.
pub fn add_block(into: &mut [u8], at: usize, run: &[u8], start: usize, count: usize)
    requires { (count ≤ widest_block) × (start + count ≤ length run.now) × (at + count ≤ length into.old) }
    ensures { into.new ≡ added xors into.old at (take count (drop start run.now)) }
{
    let block = taken(run, start, count);
    add_letters(into, at, &block, 0, count);
}

// The first `start` letters of the run are in, as many as blocks of `width` leave over of it. Adds the next block where it belongs if the run starts at index `at` of `into`,
// unless blocks twice as wide leave no more over. The answer is how many letters were added.
pub fn add_rest(into: &mut [u8], at: usize, run: &[u8], start: usize, width: usize) -> usize
    requires width { (0 < width) × (width ≤ widest_block) }
    requires lengths { (start ≡ left_over (length run.now) width) × (at + length run.now ≤ length into.old) }
    ensures letters { into.new ≡ added xors into.old (at + start) (take result (drop start run.now)) }
    ensures count { start + result ≡ left_over (length run.now) (width + width) }
{
    if run.len() % (width + width) < width {
        return 0;
    }
    add_block(into, at + start, run, start, width);
    width
}

// Adds what the widest blocks leave over of the run: its first letters, the odd ones one by one and then the eights, which are one, two, four and eight of them at most.
// The answer is how many letters were added.
pub fn add_rests(into: &mut [u8], at: usize, run: &[u8]) -> usize
    requires { at + length run.now ≤ length into.old }
    ensures letters { into.new ≡ added xors into.old at (take result run.now) }
    ensures count { result ≡ left_over (length run.now) widest_block }
{
    let mut i = run.len() % 8;
    add_letters(into, at, run, 0, i);
    i += add_rest(into, at, run, i, 8);
    i += add_rest(into, at, run, i, 16);
    i += add_rest(into, at, run, i, 32);
    i += add_rest(into, at, run, i, 64);
    i
}

// Adds the rest of a run, whose first `start` letters are in: as many as the widest blocks leave over of it.
pub fn add_blocks(into: &mut [u8], at: usize, run: &[u8], start: usize)
    requires { (start ≡ left_over (length run.now) widest_block) × (at + length run.now ≤ length into.old) }
    ensures { into.new ≡ added xors into.old (at + start) (drop start run.now) }
{
    for b in 0..run.len() / WIDEST {
        let i = start + b * WIDEST;
        add_block(into, at + i, run, i, WIDEST);
    }
}
