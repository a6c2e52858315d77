// A tile solved by itself, run by run: Newton's interpolation, divided differences on the way down and from Newton's basis to powers on the way up.
#![tactic(auto)]

ghost use Rattle.std.specs.Prelude.{◌-◌, ◌≤◌, length};
ghost use Rattle.letters.specs.Algebra.{xors};
ghost use Rattle.tiles.specs.Even.{lag};
ghost use Rattle.tiles.specs.Stages.{Solves};
ghost use Rattle.one_turn.specs.Tables.{even_shift, RunsApart, runs_in, OnlyRuns};
ghost use Rattle.one_turn.specs.Steps.Turns.{WayDown, WayUp};

use one_turn::Ranks;

// Solves the tile whose runs, of the ranks after `below` and up to the last of `ranks` and of `count` letters each, start at the indices in `starts`: they become those whose
// sums, each moved right by its lag, they were.
// (That the runs lie apart speaks of the length of `part`, which is written here and below: a value that held the fact would have to hold that length too, and ask at each turn that it is still so.)
pub fn solve(part: &mut [u8], ranks: &Ranks, starts: &[usize], below: usize, count: usize)
    requires ranks { below ≤ ranks.now.hi }
    requires runs { RunsApart starts.now below ranks.now.hi count (length part.old) }
    ensures solved { let r = ranks.now in Solves xors below r.hi count (lag (even_shift r.exps.now)) (runs_in starts.now count part.old) (runs_in starts.now count part.new) }
    ensures only { OnlyRuns starts.now below ranks.now.hi count part.old part.new }
{
    down(part, ranks, starts, below, count);
    up(part, ranks, starts, below, count);
}

// The way down, for the ranks j from the first to the last but one: run j, moved right by its lag, is added to each run after it, and that one is summed up in
// strides of the difference of the two exponents. No run comes after the last.
fn down(part: &mut [u8], ranks: &Ranks, starts: &[usize], below: usize, count: usize)
    requires ranks { below ≤ ranks.now.hi }
    requires runs { RunsApart starts.now below ranks.now.hi count (length part.old) }
    ensures { let r = ranks.now in WayDown r.exps.now starts.now below r.hi count (r.hi - below) part.old part.new }
{
    for j in below + 1..ranks.hi {
        one_turn::down_turn(part, ranks, starts, j, count);
    }
}

// The way up, for the ranks j from the last but one to the first: to each run from j on the one after it is added, moved right by the difference of the exponents
// of j and that one.
fn up(part: &mut [u8], ranks: &Ranks, starts: &[usize], below: usize, count: usize)
    requires ranks { below ≤ ranks.now.hi }
    requires runs { RunsApart starts.now below ranks.now.hi count (length part.old) }
    ensures { let r = ranks.now in WayUp r.exps.now starts.now below r.hi count 0 part.old part.new }
{
    for j in (below + 1..ranks.hi).rev() {
        one_turn::up_turn(part, ranks.exps, starts, j, ranks.hi, count);
    }
}
