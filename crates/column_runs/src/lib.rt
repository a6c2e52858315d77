// What the later columns, solved already, put into an entry, taken out of it run by run.
#![tactic(auto)]

ghost use Rattle.std.specs.Prelude.{◌≡◌, ◌+◌, ◌-◌, ◌≤◌, length};
ghost use Rattle.group.specs.Ranges.{widest};
ghost use Rattle.lengths.specs.Lengths.{file_letters};
ghost use Rattle.column_runs.specs.Steps.Runs.{moved_by, from_column, from_next, Grown};

use matrix::entries;
use matrix::senders::Senders;

// Takes all later columns out of one entry up to place `end`, one after another.
pub fn pull_runs(senders: &Senders, v: usize, w: usize, end: usize, buffer: &mut [u8])
    requires entry { (1 ≤ w) × (w ≤ v) × (v ≤ senders.now.g.k) }
    requires buffer { (length buffer.old ≡ file_letters senders.now.g) × (end ≤ senders.now.g.l) }
    ensures { let s = senders.now in Grown s.g v w 0 end (from_next s.g s.ids.now buffer.old v w (s.g.d - v)) buffer.old buffer.new }
{
    for u in v..senders.g.d {
        pull_run(senders, v, w, u + 1, end, buffer);
    }
}

// The same for one later column.
fn pull_run(senders: &Senders, v: usize, w: usize, u: usize, end: usize, buffer: &mut [u8])
    requires entry { (1 ≤ w) × (w ≤ v) × (v ≤ senders.now.g.k) }
    requires later { (v + 1 ≤ u) × (u ≤ senders.now.g.d) }
    requires buffer { (length buffer.old ≡ file_letters senders.now.g) × (end ≤ senders.now.g.l) }
    ensures { let s = senders.now in Grown s.g v w 0 end (from_column s.g s.ids.now buffer.old v w u) buffer.old buffer.new }
{
    let moved = moved_by(senders, w, u);
    if end <= moved {
        return;
    }
    let to = entries::free_start(senders.g, w, v) + moved;
    let from = entries::free_start(senders.g, v, u);
    adding_within::add_within(buffer, to, from, end - moved);
}

// How far column `u` is moved to the right in the piece of rank `w`.
pub fn moved_by(senders: &Senders, w: usize, u: usize) -> usize
    requires { (1 ≤ w) × (w ≤ senders.now.g.k) × (w ≤ u) × (u ≤ senders.now.g.d) }
    ensures { (result ≡ moved_by senders.now.ids.now w u) × (result ≤ widest) }
{
    let rows = senders.rows;
    equation::place::shift_in(rows, w, u) - equation::place::shift_in(rows, w, w)
}
