// The rounds of a system: which ranks have begun and which have ended after so many, how far a tile goes, and the small tables from which that is seen.
#![tactic(auto)]

pub mod tables;

ghost use Rattle.std.specs.Prelude.{ℕ, ◌+◌, ◌^◌, ◌≤◌, ◌<◌, ◌≡◌, length, get_or};
ghost use Rattle.rounds.specs.Steps.Rounds.{Begun, Ended, Cut};

// The most rounds of a tile, so that its runs stay near the processor however long the sequences are.
const LONGEST: usize = 2048;

// How many ranks have begun after `done` rounds, `hi` at least. It takes no `equation::System`, here and below, since it asks less than that one can be solved.
pub fn begun(s: usize, delays: &[usize], hi: usize, done: usize) -> usize
    requires { (s ≤ 16) × (length delays.now ≡ 16) × (Begun s delays.now 0 done hi) }
    ensures { (Begun s delays.now s done result) × (hi ≤ result) }
{
    for b in hi..s {
        if done < delays[b] {
            return b;
        }
    }
    s
}

// How many of the `hi` ranks that have begun have ended after `done` rounds, `below` at least.
pub fn ended(n: usize, hi: usize, delays: &[usize], below: usize, done: usize) -> usize
    requires hi_bound { (hi ≤ 16) × (length delays.now ≡ 16) × (n ≤ 2 ^ 32) × (Ended n hi delays.now 0 done below) }
    requires small { (i : ℕ) → i < hi → get_or delays.now i 0 ≤ 2 ^ 32 }
    ensures { Ended n hi delays.now hi done result }
{
    for b in below..hi {
        if done < n + delays[b] {
            return b;
        }
    }
    hi
}

// The round after which a tile ends that starts after `done` rounds: where a rank ends or the next one begins, or where it gets too long.
pub fn cut(s: usize, n: usize, delays: &[usize], below: usize, hi: usize, done: usize) -> usize
    requires s_bound { (s ≤ 16) × (length delays.now ≡ 16) × (n ≤ 2 ^ 32) × (done ≤ 2 ^ 33) × (below < s) × (below ≤ hi) × (Begun s delays.now s done hi) × (Ended n hi delays.now hi done below) }
    requires small { (i : ℕ) → i < s → get_or delays.now i 0 ≤ 2 ^ 32 }
    ensures { Cut s n delays.now below hi done result }
{
    let end = (done + LONGEST).min(n + delays[below]);
    if hi < s {
        return end.min(delays[hi]);
    }
    end
}
