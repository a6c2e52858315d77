// What the later columns, solved already, put into a column, taken out of it before it is solved itself.
#![tactic(auto)]

ghost use Rattle.std.specs.Prelude.{◌≡◌, ◌-◌, ◌≤◌, min, length};
ghost use Rattle.lengths.specs.Lengths.{file_letters};
ghost use Rattle.column_runs.specs.Steps.Runs.{from_next, Grown};
ghost use Rattle.columns.specs.Steps.Columns.{Pulled};

use matrix::senders::Senders;

// Takes the columns after column `v`, which are solved, out of it: entry (w,v) loses each m(v,u) moved right by t(iw,u) - t(iw,w).
// Past column k there is nothing to take: that is the matrix's zero corner.
pub fn pull_column(senders: &Senders, v: usize, buffer: &mut [u8])
    requires { (length buffer.old ≡ file_letters senders.now.g) × (1 ≤ v) × (v ≤ senders.now.g.d) }
    ensures { let s = senders.now in Pulled s.g s.ids.now v (min v s.g.k) buffer.old buffer.new }
{
    if senders.g.k < v {
        return;
    }
    for w in 0..v {
        pull_entry(senders, v, w + 1, buffer);
    }
}

// Takes all later columns out of one entry. Behind the place that the last of them is moved to, each letter has a letter of every one of them:
// that part is written in one pass, if it has a whole block and there is more than one of them. All else goes in run by run.
fn pull_entry(senders: &Senders, v: usize, w: usize, buffer: &mut [u8])
    requires entry { (1 ≤ w) × (w ≤ v) × (v ≤ senders.now.g.k) }
    requires buffer { length buffer.old ≡ file_letters senders.now.g }
    ensures { let s = senders.now in Grown s.g v w 0 s.g.l (from_next s.g s.ids.now buffer.old v w (s.g.d - v)) buffer.old buffer.new }
{
    let g = senders.g;
    let wide = column_runs::moved_by(senders, w, g.d);
    if g.l < wide + sums::BLOCK || g.d < v + 2 {
        column_runs::pull_runs(senders, v, w, g.l, buffer);
    } else {
        column_runs::pull_runs(senders, v, w, wide, buffer);
        column_blocks::pull_blocks(senders, v, w, wide, buffer);
    }
}
