// The small tables of a system: the exponents of its ranks, when each begins, and where the runs of a tile start.
ghost use Rattle.std.specs.Prelude.{◌≡◌, ℕ, ◌+◌, ◌^◌, ◌≤◌, ◌<◌, length, get_or};
ghost use Rattle.equation.specs.Rows.{Rows};
ghost use Rattle.rounds.specs.Steps.Rounds.{Exponents, Waits, RunStarts};

use equation::place;

// The exponents of the s ranks: how much further each moves a sequence than the one before it. They stand in the second column.
// (It takes no `equation::System`, since the delays of one are made from what it answers.)
pub fn exponents(s: usize, rows: &[usize]) -> [usize; 16]
    requires { Rows s rows.now }
    ensures { Exponents s rows.now result }
{
    let mut exps = [0usize; 16];
    for b in 0..s {
        exps[b] = place::shift_in(rows, b + 1, 2);
    }
    exps
}

// The delays of the s ranks: each begins its exponent after the one before it, the first at once.
pub fn delays(s: usize, exps: &[usize]) -> [usize; 16]
    requires { (1 ≤ s) × (s ≤ 16) × (length exps.now ≡ 16) × ((i : ℕ) → 1 ≤ i → i < s → get_or exps.now i 0 ≤ 65535) }
    ensures { Waits s exps.now result }
{
    let mut delays = [0usize; 16];
    for b in 1..s {
        delays[b] = delays[b - 1] + exps[b];
    }
    delays
}

// Where the runs of a tile start that begins after `done` rounds, for the ranks after `below` and up to `hi`.
pub fn starts(n: usize, delays: &[usize], below: usize, hi: usize, done: usize) -> [usize; 16]
    requires hi_bound { (hi ≤ 16) × (length delays.now ≡ 16) × (n ≤ 2 ^ 32) × (done ≤ 2 ^ 34) }
    requires begun { (i : ℕ) → below ≤ i → i < hi → get_or delays.now i 0 ≤ done }
    ensures { RunStarts n delays.now below hi done result }
{
    let mut starts = [0usize; 16];
    for b in below..hi {
        starts[b] = b * n + (done - delays[b]);
    }
    starts
}
