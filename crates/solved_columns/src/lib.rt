// The columns of a file solved one after another, from the last one down: recovery for a group, ids and a buffer that are known to be right, with nothing counted.
#![tactic(auto)]

ghost use Rattle.std.specs.Prelude.{◌≡◌, ◌≤◌, length};
ghost use Rattle.letters.specs.Algebra.{xors};
ghost use Rattle.lengths.specs.Lengths.{file_letters};
ghost use Rattle.matrix.specs.Pieces.{reading};
ghost use Rattle.columns.specs.Steps.Columns.{Collected};
ghost use Rattle.solved_columns.specs.Steps.Recovery.{Column, Stage};

use group::Group;
use matrix::entries;
use matrix::senders::Senders;
use sequences::rows::{self, Tabled};

// Turns the pieces in `buffer` into the one file that has them, in place.
pub fn recover(g: Group, ids: &[usize], buffer: &mut [u8])
    requires { Collected g ids.now buffer.old }
    ensures { (length buffer.new ≡ file_letters g) × (reading xors g buffer.new ids.now ≡ buffer.old) }
{
    let table = shifts::all();
    let senders = Senders {
        g,
        ids,
        rows: &rows::of(&Tabled { table: &table }, ids),
    };
    recover_columns(&senders, buffer);
}

// The columns from the last one down: the later ones, solved by then, are taken out of each, and it is solved where it lies.
pub fn recover_columns(senders: &Senders, buffer: &mut [u8])
    requires { length buffer.old ≡ file_letters senders.now.g }
    ensures { Stage senders.now.g senders.now.ids.now 0 buffer.old buffer.new }
{
    for u in (1..=senders.g.d).rev() {
        recover_column(senders, u, buffer);
    }
}

// Column `u`: its min(u,k) sequences are one part of the buffer.
fn recover_column(senders: &Senders, u: usize, buffer: &mut [u8])
    requires { (length buffer.old ≡ file_letters senders.now.g) × (1 ≤ u) × (u ≤ senders.now.g.d) }
    ensures { Column senders.now.g senders.now.ids.now u buffer.old buffer.new }
{
    let g = senders.g;
    let s = u.min(g.k);
    let start = entries::sequences_before(g.k, u) * g.l;
    let end = start + s * g.l;
    columns::pull_column(senders, u, buffer);
    solving::solve(&mut buffer[start..end], s, g.l, senders.rows);
}
