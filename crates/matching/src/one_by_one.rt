// The first letter that isn't the same.
ghost use Rattle.std.specs.Prelude.{◌≡◌, length, get_or};
ghost use Rattle.sums.specs.Sums.{sum_at, RunsInside};
ghost use Rattle.matching.specs.Same.{SameTo, SameFor};

use sums::sources as summing;

// Goes on letter by letter from index `at` on, up to which all letters are the same.
pub fn same_letters(held: &[u8], from: &[u8], starts: &[usize], at: usize) -> usize
    requires runs { RunsInside starts.now (length starts.now) (length held.now) (length from.now) }
    requires same { SameTo held.now (sum_at from.now starts.now (length starts.now)) at }
    ensures { SameFor held.now (sum_at from.now starts.now (length starts.now)) result }
{
    for i in at..held.len() {
        if held[i] != summing::letter(from, starts, i) {
            return i;
        }
    }
    held.len()
}

// How many letters of `held`, from the front, are those of `right`, which has as many.
pub fn same_as(held: &[u8], right: &[u8]) -> usize
    requires { length right.now ≡ length held.now }
    ensures { SameFor held.now (λ q. get_or right.now q 0) result }
{
    for i in 0..held.len() {
        if held[i] != right[i] {
            return i;
        }
    }
    held.len()
}
