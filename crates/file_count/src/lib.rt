// The count of a recovery over the file that came out (docs/SCHEME.md, 8), entry by entry: each one's letters are gone through once, for the terms of solving its column and for those
// that take it out of the columns before.
#![tactic(auto)]

ghost use Rattle.std.specs.Prelude.{◌≡◌, ◌+◌, ◌-◌, ◌*◌, ◌≤◌, min, length};
ghost use Rattle.lengths.specs.Lengths.{file_letters};
ghost use Rattle.matrix.specs.Matrix.{entry_number};
ghost use Rattle.matrix.specs.Counts.{recovery_count};
ghost use Rattle.file_count.specs.Steps.Terms.{solving_terms, taking_terms, column_terms, entry_most};

use counting::Run;
use matrix::entries;
use matrix::senders::Senders;

// The number of terms of document 01's sums whose letter isn't zero, where `file` came out of the pieces of these nodes.
// Column 1 has none: it has one entry, which is taken out of nothing.
pub fn of_file(senders: &Senders, file: &[u8]) -> usize
    requires { length file.now ≡ file_letters senders.now.g }
    ensures { result ≡ recovery_count senders.now.g senders.now.ids.now file.now }
{
    let mut count: usize = 0;
    for u in 1..senders.g.d {
        count += of_column(senders, u + 1, file);
    }
    count
}

// Those of column `u`: of its min(u,k) entries.
fn of_column(senders: &Senders, u: usize, file: &[u8]) -> usize
    requires { (length file.now ≡ file_letters senders.now.g) × (1 ≤ u) × (u ≤ senders.now.g.d) }
    ensures { (result ≡ column_terms senders.now.g senders.now.ids.now file.now u) × (result ≤ 16 * (entry_most + entry_most)) }
{
    let s = u.min(senders.g.k);
    let mut count: usize = 0;
    for v in 0..s {
        count += of_entry(senders, u, s, v + 1, file);
    }
    count
}

// Those of entry (v,u).
fn of_entry(senders: &Senders, u: usize, s: usize, v: usize, file: &[u8]) -> usize
    requires { (length file.now ≡ file_letters senders.now.g) × (1 ≤ u) × (u ≤ senders.now.g.d) × (s ≡ min u senders.now.g.k) × (1 ≤ v) × (v ≤ s) }
    ensures terms { result ≡ solving_terms senders.now.g senders.now.ids.now file.now u v + taking_terms senders.now.g senders.now.ids.now file.now u v }
    ensures few { result ≤ entry_most + entry_most }
{
    let g = senders.g;
    let start = entries::free_start(g, v, u);
    let run = Run {
        buffer: file,
        start,
        n: g.l,
        whole: worth::count(&file[start..start + g.l]),
    };
    let solving = run.of_others(senders.rows, s, v);
    solving + of_takings(senders, u, v, &run)
}

// Those that take entry (v,u) out of the entries (w,v), w <= v: none if that is its own column.
fn of_takings(senders: &Senders, u: usize, v: usize, run: &Run) -> usize
    requires entry { (1 ≤ u) × (u ≤ senders.now.g.d) × (1 ≤ v) × (v ≤ min u senders.now.g.k) }
    requires run { let g = senders.now.g in (length run.now.buffer.now ≡ file_letters g) × (run.now.n ≡ g.l) × (run.now.start ≡ (entry_number g.k v u - 1) * g.l) }
    ensures { (result ≡ taking_terms senders.now.g senders.now.ids.now run.now.buffer.now u v) × (result ≤ entry_most) }
{
    if u <= v {
        return 0;
    }
    let mut count: usize = 0;
    for w in 0..v {
        count += run.of_run(senders.rows, w + 1, u);
    }
    count
}
