// The solver of a system of shifted sums: s pieces of n letters are turned, where they lie, into the s sequences that they are sums of. It goes by tiles: rounds in which the same
// ranks have a letter, whose runs are solved as wholes.
#![tactic(auto)]

ghost use Rattle.std.specs.Prelude.{◌≡◌, ◌+◌, ◌*◌, ◌^◌, ◌≤◌, ◌<◌, length};
ghost use Rattle.equation.specs.Rows.{shift_in, Solvable};
ghost use Rattle.solving.specs.Solver.{Solved, SolvedCounted};
ghost use Rattle.solving.specs.Steps.Tiles.{TablesOf, Onward};

use earlier::Tile;
use equation::System;
use one_turn::Ranks;

// Solves the system of `s` equations over `s` sequences of `n` letters each. `part` holds the s pieces one after another and is left with
// the s sequences in their place; `rows` has the shift of the node of rank b at column a at index (b - 1) * 16 + (a - 1).
// (It takes no `equation::System`, here and below: it makes one, with delays that nobody outside has.)
pub fn solve(part: &mut [u8], s: usize, n: usize, rows: &[usize])
    requires system { Solvable s n rows.now }
    requires letters { length part.old ≡ s * n }
    ensures { Solved s n rows.now part.old part.new }
{
    let exps = rounds::tables::exponents(s, rows);
    let delays = rounds::tables::delays(s, &exps);
    let system = System {
        s,
        n,
        rows,
        delays: &delays,
    };
    solve_tiles(part, &system, &exps);
}

// The same. The answer is how many of the system's terms have a letter that isn't zero, in the sequences that came out (docs/SCHEME.md, 8).
pub fn solve_counted(part: &mut [u8], s: usize, n: usize, rows: &[usize]) -> usize
    requires system { Solvable s n rows.now }
    requires letters { length part.old ≡ s * n }
    ensures { SolvedCounted s n rows.now part.old part.new result }
{
    solve(part, s, n, rows);
    counting::of_solving(part, s, n, rows)
}

// The tiles, one after another, until all rounds are done.
fn solve_tiles(part: &mut [u8], system: &System, exps: &[usize])
    requires tables { TablesOf system.now.s system.now.rows.now exps.now system.now.delays.now }
    requires letters { length part.old ≡ system.now.s * system.now.n }
    ensures { Solved system.now.s system.now.n system.now.rows.now part.old part.new }
{
    let rounds = system.n + system.delays[system.s - 1];
    let mut hi = 0;
    let mut below = 0;
    let mut done = 0;
    // No count: each tile ends where its own ranks say.
    while done < rounds {
        hi = rounds::begun(system.s, system.delays, hi, done);
        below = rounds::ended(system.n, hi, system.delays, below, done);
        let end = rounds::cut(system.s, system.n, system.delays, below, hi, done);
        let tile = Tile {
            system: *system,
            below,
            hi,
            done,
            count: end - done,
        };
        solve_tile(part, &tile, exps);
        done = end;
    }
}

// One tile: what is read from before it is taken out of its runs, and what is left of them is solved by itself.
fn solve_tile(part: &mut [u8], tile: &Tile, exps: &[usize])
    requires tables { let t = tile.now.system in TablesOf t.s t.rows.now exps.now t.delays.now }
    requires letters { length part.old ≡ tile.now.system.s * tile.now.system.n }
    requires small { tile.now.done + tile.now.count ≤ 2 ^ 34 }
    ensures { let t = tile.now in Onward t.system.s t.system.n t.system.rows.now part.old part.new t.done (t.done + t.count) }
{
    let delays = tile.system.delays;
    let starts = rounds::tables::starts(tile.system.n, delays, tile.below, tile.hi, tile.done);
    earlier::take_out(part, tile);
    let ranks = Ranks {
        hi: tile.hi,
        exps,
        delays,
    };
    turns::solve(part, &ranks, &starts, tile.below, tile.count);
}
