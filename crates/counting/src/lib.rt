// The terms of document 01's sums whose letter isn't zero (docs/SCHEME.md, 8), counted by their definition over the solution: of each sequence the letters that
// aren't zero, less those that fall outside, which are some of its first or of its last. So each sequence is gone through once, and its ends once for each rank.
#![tactic(auto)]

ghost use Rattle.std.specs.Prelude.{◌≡◌, ◌+◌, ◌-◌, ◌*◌, ◌^◌, ◌≤◌, length};
ghost use Rattle.system.specs.System.{sequence};
ghost use Rattle.system.specs.Count.{other, additions};
ghost use Rattle.equation.specs.Rows.{shift_in, Rows};
ghost use Rattle.counting.specs.Steps.Taken.{Counted, LeftOf, run_terms, others_terms};

use equation::place;

// A run of a buffer: the `n` letters that start at index `start`, of which `whole` aren't zero.
#[derive(Clone, Copy)]
pub struct Run<'a> {
    pub buffer: &'a [u8],
    pub start: usize,
    pub n: usize,
    pub whole: usize,
    pub ghost counted: { Counted buffer.now start n whole },
}

// The number of terms of solving whose letter isn't zero, where `part` holds the solution: s sequences of n letters, one after another.
// `rows` has the shift of the node of rank b at column a at index (b - 1) * 16 + (a - 1).
pub fn of_solving(part: &[u8], s: usize, n: usize, rows: &[usize]) -> usize
    requires { (Rows s rows.now) × (n ≤ 2 ^ 32) × (length part.now ≡ s * n) }
    ensures { result ≡ additions s n (shift_in rows.now) (sequence 0 part.now n) }
{
    let mut count: usize = 0;
    for a in 0..s {
        count += of_sequence(part, a * n, n, rows, s, a + 1);
    }
    count
}

// Those of one sequence `a`, whose letters start at index `start`.
fn of_sequence(part: &[u8], start: usize, n: usize, rows: &[usize], s: usize, a: usize) -> usize
    requires { (Rows s rows.now) × (n ≤ 2 ^ 32) × (start + n ≤ length part.now) × (1 ≤ a) × (a ≤ s) }
    ensures { (result ≡ others_terms part.now start n rows.now s a) × (result ≤ 16 * 2 ^ 32) }
{
    let whole = worth::count(&part[start..start + n]);
    let run = Run {
        buffer: part,
        start,
        n,
        whole,
    };
    run.of_others(rows, s, a)
}

impl Run<'_> {
    // How many letters that aren't zero the equations of the ranks 1..s, all but rank `a`, take of the run, if it lies in them as sequence `a`.
    pub fn of_others(&self, rows: &[usize], s: usize, a: usize) -> usize
        requires few { self.now.n ≤ 2 ^ 32 }
        requires ranks { (length rows.now ≡ 256) × (s ≤ 16) × (1 ≤ a) × (a ≤ 16) }
        ensures { (result ≡ others_terms self.now.buffer.now self.now.start self.now.n rows.now s a) × (result ≤ 16 * 2 ^ 32) }
    {
        let mut count: usize = 0;
        for b in 0..s {
            count += self.of_other(rows, b + 1, a);
        }
        count
    }

    // Those that rank `b` takes: none of its own sequence.
    fn of_other(&self, rows: &[usize], b: usize, a: usize) -> usize
        requires { (length rows.now ≡ 256) × (1 ≤ b) × (b ≤ 16) × (1 ≤ a) × (a ≤ 16) }
        ensures { (result ≡ other a b (run_terms self.now.buffer.now self.now.start self.now.n rows.now b a)) × (result ≤ self.now.n) }
    {
        if a == b {
            return 0;
        }
        self.of_run(rows, b, a)
    }

    // How many letters that aren't zero the equations of rank `b` take of the run, if it lies in them as sequence `a`. Seen from it they lie to the left or to the right: so the
    // last letters fall outside, or the first, as many as the two shifts lie apart.
    pub fn of_run(&self, rows: &[usize], b: usize, a: usize) -> usize
        requires { (length rows.now ≡ 256) × (1 ≤ b) × (b ≤ 16) × (1 ≤ a) × (a ≤ 16) }
        ensures { (result ≡ run_terms self.now.buffer.now self.now.start self.now.n rows.now b a) × (result ≤ self.now.n) }
    {
        let own = place::shift_in(rows, b, b);
        let moved = place::shift_in(rows, b, a);
        if moved <= own {
            return self.but_first(own - moved);
        }
        self.but_last(moved - own)
    }

    // Those of the run's letters that aren't zero, without its first `outside` letters.
    fn but_first(&self, outside: usize) -> usize
        ensures { LeftOf self.now.buffer.now self.now.start self.now.n self.now.start outside result }
    {
        if self.n <= outside {
            return 0;
        }
        self.whole - worth::count(&self.buffer[self.start..self.start + outside])
    }

    // Without its last `outside` letters.
    fn but_last(&self, outside: usize) -> usize
        ensures { let r = self.now in LeftOf r.buffer.now r.start r.n (r.start + (r.n - outside)) outside result }
    {
        if self.n <= outside {
            return 0;
        }
        let kept = self.start + (self.n - outside);
        self.whole - worth::count(&self.buffer[kept..kept + outside])
    }
}
