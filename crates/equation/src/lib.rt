// A system of shifted sums as it is handed over: rows of shifts, when each of its ranks begins, and when it can be solved.
#![tactic(auto)]

pub mod place;

ghost use Rattle.equation.specs.Rows.{Solvable};
ghost use Rattle.equation.specs.Delays.{Delays};

// A system of `s` equations over `s` sequences of `n` letters each. `rows` has the shift of the node of rank b at column a at index (b - 1) * 16 + (a - 1), and `delays` when rank b
// begins at index b - 1.
#[derive(Clone, Copy)]
pub struct System<'a> {
    pub s: usize,
    pub n: usize,
    pub rows: &'a [usize],
    pub delays: &'a [usize],
    pub ghost solvable: { Solvable s n rows.now },
    pub ghost waits: { Delays s rows.now delays.now },
}
