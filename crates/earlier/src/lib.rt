// What the equations of a tile read from before it, taken out of its runs.
#![tactic(auto)]

ghost use Rattle.std.specs.Prelude.{◌≡◌, ◌+◌, ◌*◌, ◌≤◌, ◌<◌, length};
ghost use Rattle.equation.specs.Rows.{shift_in};
ghost use Rattle.tiles.specs.Tile.{Tile as IsTile};
ghost use Rattle.earlier.specs.Steps.{AddedFrom, TakesOne, TakesAll};
ghost use Rattle.earlier.specs.Taken.{TakesOut};

use equation::System;

// A tile of a system: the rounds done + 1 .. done + count, in which the ranks after `below` and up to `hi` have a letter each.
#[derive(Clone, Copy)]
pub struct Tile<'a> {
    pub system: System<'a>,
    pub below: usize,
    pub hi: usize,
    pub done: usize,
    pub count: usize,
    pub ghost tile: { IsTile system.s system.n (shift_in system.rows.now) done count below hi },
}

// Takes out of each run of a tile what its equations read in rounds before it.
pub fn take_out(part: &mut [u8], tile: &Tile)
    requires { length part.old ≡ tile.now.system.s * tile.now.system.n }
    ensures { let t = tile.now in TakesOut t.system.s t.system.n (shift_in t.system.rows.now) t.done t.count t.below t.hi part.old t.hi part.new }
{
    for b in tile.below..tile.hi {
        of_all(part, tile, b + 1);
    }
}

// What the run of rank `b` reads of all sequences that have begun.
fn of_all(part: &mut [u8], tile: &Tile, b: usize)
    requires letters { length part.old ≡ tile.now.system.s * tile.now.system.n }
    requires rank { (tile.now.below < b) × (b ≤ tile.now.hi) }
    ensures { let t = tile.now in TakesAll t.system.n (shift_in t.system.rows.now) t.done t.count b t.hi part.old part.new }
{
    for a in 0..tile.hi {
        of_one(part, tile, b, a + 1);
    }
}

// And of sequence `a` alone: one addition, where it reads any letter. Of its own sequence it reads none from before the tile.
fn of_one(part: &mut [u8], tile: &Tile, b: usize, a: usize)
    requires letters { length part.old ≡ tile.now.system.s * tile.now.system.n }
    requires rank { (tile.now.below < b) × (b ≤ tile.now.hi) }
    requires sequence { (1 ≤ a) × (a ≤ tile.now.hi) }
    ensures { let t = tile.now in TakesOne t.system.n (shift_in t.system.rows.now) t.done t.count b a part.old part.new }
{
    let system = &tile.system;
    let r = spans::read_before(system, tile.done, tile.count, b, a);
    if 0 < r.count {
        let start = (b - 1) * system.n + (tile.done - system.delays[b - 1]);
        add(
            part,
            start + r.skip,
            (a - 1) * system.n + (r.place - 1),
            r.count,
        );
    }
}

// Adds the letters from index `from` on to `count` letters from index `to` on. They lie before those, or after them and apart.
fn add(part: &mut [u8], to: usize, from: usize, count: usize)
    requires { (to + count ≤ length part.old) × (from + count ≤ length part.old) × (to < from → to + count ≤ from) }
    ensures { AddedFrom part.old part.new to from count }
{
    if from <= to {
        adding_after::add_after(part, to, from, count);
    } else {
        adding_within::add_within(part, to, from, count);
    }
}
