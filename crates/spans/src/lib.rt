// Where a run of a tile reads a sequence from before the tile.
#![tactic(auto)]

ghost use Rattle.std.specs.Prelude.{◌+◌, ◌^◌, ◌≤◌};
ghost use Rattle.equation.specs.Rows.{shift_in};
ghost use Rattle.spans.specs.Steps.Spans.{RunPlaced, HasBegun, Reads, ReadsBefore};

use equation::{System, place};

// The letters of a sequence that a run reads: the first of them is read by the letter after `skip` of the run, and stands at place `place`. Where there is none, the count is 0.
#[derive(Clone, Copy)]
pub struct Span {
    pub skip: usize,
    pub place: usize,
    pub count: usize,
}

// Where the run of rank `b` reads the letters of sequence `a` that lie in rounds up to `done`.
pub fn read_before(system: &System, done: usize, count: usize, b: usize, a: usize) -> Span
    requires run { RunPlaced system.now.s system.now.n (shift_in system.now.rows.now) done count b }
    requires sequence { HasBegun system.now.s (shift_in system.now.rows.now) done a }
    ensures { ReadsBefore system.now.n (shift_in system.now.rows.now) done count b a result.skip result.place result.count }
{
    let q = done - system.delays[b - 1] + 1;
    let top = system.n.min(done - system.delays[a - 1]);
    let own = place::shift_in(system.rows, b, b);
    let moved = place::shift_in(system.rows, b, a);
    read(q, own, moved, top, count)
}

// Where a run of `count` letters, the first of which is letter `q` of its piece, reads a sequence up to place `top`. Seen from the sequence the piece lies at `own - moved`: the offset, below
// zero to the left. It is added to the position, and the place is tested before it is used.
// It is the only signed number of the store.
fn read(q: usize, own: usize, moved: usize, top: usize, count: usize) -> Span
    requires { (q ≤ 2 ^ 33) × (own ≤ 65535) × (moved ≤ 65535) × (top ≤ 2 ^ 33) }
    ensures { Reads (q + own) moved top count result.skip result.place result.count }
{
    let offset = own as i64 - moved as i64;
    let at = q as i64 + offset;
    if at < 1 {
        return below((1 - at) as usize, top, count);
    }
    if at > (top as i64) {
        return Span {
            skip: 0,
            place: 1,
            count: 0,
        };
    }
    let place = at as usize;
    Span {
        skip: 0,
        place,
        count: count.min(top + 1 - place),
    }
}

// The same where the first `outside` letters of the run read before the sequence's first place: so the next one reads that place.
fn below(outside: usize, top: usize, count: usize) -> Span
    ensures { Reads 1 outside top count result.skip result.place result.count }
{
    let skip = count.min(outside);
    Span {
        skip,
        place: 1,
        count: top.min(count - skip),
    }
}
