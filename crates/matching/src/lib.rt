// Letters that are compared with a sum of runs while it is made: a block of the sum is put together in local memory, which the compiler keeps in registers, and compared
// there, so that the sum is laid down nowhere.
#![tactic(auto)]

pub mod blocks;
pub mod one_by_one;

ghost use Rattle.std.specs.Prelude.{length};
ghost use Rattle.sums.specs.Sums.{sum_at, RunsInside};
ghost use Rattle.matching.specs.Same.{SameFor};

// How many letters of `held`, from the front, are those of the sum of the runs of `from` that start at these indices.
pub fn same(held: &[u8], from: &[u8], starts: &[usize]) -> usize
    requires { RunsInside starts.now (length starts.now) (length held.now) (length from.now) }
    ensures { SameFor held.now (sum_at from.now starts.now (length starts.now)) result }
{
    let at = blocks::same_blocks(held, from, starts);
    one_by_one::same_letters(held, from, starts, at)
}
