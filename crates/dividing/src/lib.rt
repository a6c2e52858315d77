// Running sums in strides: they undo the addition of a run, moved, to itself. Moving a run by w letters is called D^w.
#![tactic(auto)]

ghost use Rattle.std.specs.Prelude.{◌≡◌, ◌+◌, ◌-◌, ◌≤◌, ◌<◌, length};
ghost use Rattle.letters.specs.Steps.Rests.{left_over};
ghost use Rattle.dividing.specs.Running.{RunningSum};
ghost use Rattle.dividing.specs.Steps.Widening.{Widened, step};

use adding_within::blocks;

// The letters of a step. A running sum goes in steps where its stride is a multiple of a step: then a step reads what one step before it stored, neither
// parts of two, for which a processor would have to wait.
pub const STEP: usize = 16;

// A run of fewer letters is summed one by one.
pub const SHORT: usize = 40;

// Divides a run by 1 + D^w: each letter of it but the first `w` becomes the sum of itself and of what the letter `w` before it becomes. `w` isn't 0.
pub fn divide(run: &mut [u8], w: usize)
    requires { 1 ≤ w }
    ensures { RunningSum run.old run.new w (length run.old) w }
{
    if run.len() <= w {
        return;
    }
    if run.len() < SHORT {
        by_letters(run, w);
        return;
    }
    let wide = widened(run, w);
    if wide < run.len() {
        by_steps(run, wide);
    }
}

// The same, letter by letter.
fn by_letters(run: &mut [u8], w: usize)
    requires { (1 ≤ w) × (w ≤ length run.old) }
    ensures { RunningSum run.old run.new w (length run.old) w }
{
    for i in w..run.len() {
        run[i] ^= run[i - w];
    }
}

// Multiplies a run by 1 + D^w, then by 1 + D^2w and so on, until the stride is a multiple of a step or nothing in the run is so far apart. The answer is that stride:
// what is left to do is to divide by 1 + D^ of it, since 1 / (1 + D^w) is (1 + D^w) / (1 + D^2w).
fn widened(run: &mut [u8], w: usize) -> usize
    requires { 1 ≤ w }
    ensures { Widened run.old run.new w result }
{
    let count = run.len();
    let mut wide = w;
    while wide < count {
        if wide % STEP == 0 {
            return wide;
        }
        adding_after::add_after(run, wide, 0, count - wide);
        wide += wide;
    }
    wide
}

// Divides by 1 + D^w, where `w` is a step or more: the letters that whole steps leave over first, and then a step at a time.
fn by_steps(run: &mut [u8], w: usize)
    requires { (step ≤ w) × (w ≤ length run.old) }
    ensures { RunningSum run.old run.new w (length run.old) w }
{
    let count = run.len() - w;
    let i = count % STEP;
    sum_rests(run, w, i);
    sum_steps(run, w, i, count - i);
}

// Adds the first `count` letters, fewer than a step, to those a stride behind them, which is a step or more.
fn sum_rests(run: &mut [u8], w: usize, count: usize)
    requires { (count < step) × (step ≤ w) × (w + count ≤ length run.old) }
    ensures { RunningSum run.old run.new w (w + count) w }
{
    let mut i = sum_rest(run, w, count, 0, 1);
    i = sum_rest(run, w, count, i, 2);
    i = sum_rest(run, w, count, i, 4);
    sum_rest(run, w, count, i, 8);
}

// The first `i` letters are added, as many as blocks of `width` leave over of `count`. Adds the next block, unless blocks twice as wide leave no more over.
// The answer is how many are added then.
fn sum_rest(run: &mut [u8], w: usize, count: usize, i: usize, width: usize) -> usize
    requires width { (0 < width) × (width + width ≤ step) }
    requires lengths { (i ≡ left_over count width) × (step ≤ w) × (w + count ≤ length run.old) }
    ensures letters { RunningSum run.old run.new (w + i) (w + result) w }
    ensures count { (i ≤ result) × (result ≡ left_over count (width + width)) }
{
    if count % (width + width) < width {
        return i;
    }
    blocks::add_block(run, w + i, i, width);
    i + width
}

// Adds the `count` letters from index `from` on, whole steps of them, to those a stride behind them, which is a step or more, the first step first: so where the
// two overlap, what is added is what it has become.
fn sum_steps(run: &mut [u8], w: usize, from: usize, count: usize)
    requires { (left_over count step ≡ 0) × (step ≤ w) × (w + from + count ≤ length run.old) }
    ensures { RunningSum run.old run.new (w + from) (w + from + count) w }
{
    // No `for` over the steps: the compiler lays four of these turns out in a row (19 instructions for 64 letters), but two of those (24).
    // And `count` is handed over: taken from the length in here, it lays out one (28).
    let mut i = 0;
    while i < count {
        blocks::add_block(run, w + from + i, from + i, STEP);
        i += STEP;
    }
}
