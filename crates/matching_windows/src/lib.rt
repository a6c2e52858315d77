// Letters compared with a sum of runs that are each moved right, seen through a window: where all of them have a letter in blocks, and at the two ends run by run.
#![tactic(auto)]

ghost use Rattle.std.specs.Prelude.{◌≡◌, ◌+◌, ◌≤◌, length};
ghost use Rattle.sequences.specs.Steps.MovedRuns.{AllSeen};
ghost use Rattle.matching.specs.Same.{SameFor};
ghost use Rattle.matching_windows.specs.Windows.{seen_letter};

use matching::{blocks, one_by_one};
use sequences::moved::Moved;

// How many letters the local memory for the ends has: no node moves a run by more than 210, so that an end is one block of them; and a byte can count them.
const ENDS: usize = 240;

// Fills `block` with the sum of the runs as it is seen through a window that leaves out its first `skip` places. The answer is how many letters of `held`, which has as many, are
// the same from the front.
fn seen_in(block: &mut [u8], held: &[u8], runs: &Moved, skip: usize) -> usize
    requires { (length block.old ≡ length held.now) × (length held.now ≤ 240) }
    ensures { let m = runs.now in SameFor held.now (seen_letter m.from.now m.starts.now m.leads.now (length m.starts.now) m.size skip) result }
{
    runs.add_each(block, skip);
    let count = held.len();
    if blocks::equal(block, held, 0, count) {
        return count;
    }
    one_by_one::same_as(held, block)
}

// The same in local memory, for few letters.
fn seen_few(held: &[u8], runs: &Moved, skip: usize) -> usize
    requires { length held.now ≤ 240 }
    ensures { let m = runs.now in SameFor held.now (seen_letter m.from.now m.starts.now m.leads.now (length m.starts.now) m.size skip) result }
{
    let mut block = [0u8; ENDS];
    let count = held.len();
    seen_in(&mut block[0..count], held, runs, skip)
}

// The same for any letters.
pub fn seen(held: &[u8], runs: &Moved, skip: usize) -> usize
    requires { skip + length held.now ≤ 2147483648 }
    ensures { let m = runs.now in SameFor held.now (seen_letter m.from.now m.starts.now m.leads.now (length m.starts.now) m.size skip) result }
{
    let mut at = 0;
    // No count: what is left at the end is a shorter window, and the first that differs ends it.
    while at < held.len() {
        let end = at + ENDS.min(held.len() - at);
        let same = seen_few(&held[at..end], runs, skip + at);
        if same < end - at {
            return at + same;
        }
        at = end;
    }
    at
}

// The same where all of them have a letter all along.
fn middle(held: &[u8], runs: &Moved, skip: usize) -> usize
    requires { AllSeen runs.now.leads.now (length runs.now.starts.now) runs.now.size skip 0 (length held.now) }
    ensures { let m = runs.now in SameFor held.now (seen_letter m.from.now m.starts.now m.leads.now (length m.starts.now) m.size skip) result }
{
    let seen = runs.seen_starts(skip);
    matching::same(held, runs.from, &seen[..runs.starts.len()])
}

// How many letters of `held`, from the front, are those of the sum, of which all runs have a letter from index `front` up to `back`.
pub fn same(held: &[u8], runs: &Moved, front: usize, back: usize) -> usize
    requires { (AllSeen runs.now.leads.now (length runs.now.starts.now) runs.now.size 0 front back) × (back ≤ length held.now) × (length held.now ≤ 2147483648) }
    ensures { let m = runs.now in SameFor held.now (seen_letter m.from.now m.starts.now m.leads.now (length m.starts.now) m.size 0) result }
{
    let first = seen(&held[0..front], runs, 0);
    if first < front {
        return first;
    }
    let next = middle(&held[front..back], runs, front);
    if next < back - front {
        return front + next;
    }
    back + seen(&held[back..], runs, back)
}
