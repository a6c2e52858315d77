// What a turn does to one run of a buffer: another one, moved right, is added to it, or it is summed up in strides.
#![tactic(auto)]

ghost use Rattle.std.specs.Prelude.{◌+◌, ◌≤◌, length};
ghost use Rattle.one_run.specs.Steps.Runs.{RunAdded, RunSummed};

// Adds to the run of `count` letters at index `to` the one at index `from`, which ends before it, moved right by `moved`.
// (Indices and a count, no slices: both are runs of one buffer.)
pub fn add_earlier(part: &mut [u8], to: usize, from: usize, moved: usize, count: usize)
    requires { (from + count ≤ to) × (to + count ≤ length part.old) }
    ensures { RunAdded to from count moved part.old part.new }
{
    if moved < count {
        adding_after::add_after(part, to + moved, from, count - moved);
    }
}

// The same where the run at index `from` starts behind the other. (Beside `add_earlier`: which of the two additions within a buffer it is tells them apart, and that is all they are.)
pub fn add_later(part: &mut [u8], to: usize, from: usize, moved: usize, count: usize)
    requires { (to + count ≤ from) × (from + count ≤ length part.old) }
    ensures { RunAdded to from count moved part.old part.new }
{
    if moved < count {
        adding_within::add_within(part, to + moved, from, count - moved);
    }
}

// Sums the run of `count` letters at index `start` up in strides: to each letter the one a stride before it is added, as that is then.
pub fn sum_up(part: &mut [u8], start: usize, count: usize, stride: usize)
    requires { (1 ≤ stride) × (start + count ≤ length part.old) }
    ensures { RunSummed start count stride part.old part.new }
{
    dividing::divide(&mut part[start..start + count], stride);
}
