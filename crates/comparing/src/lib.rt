// What a node holds, compared with its packets of a file while they are made. No packet is laid down anywhere, so that nobody needs room for one.
#![tactic(auto)]

ghost use Rattle.std.specs.Prelude.{◌≡◌, ◌≤◌, length, get_or};
ghost use Rattle.letters.specs.Algebra.{xors};
ghost use Rattle.shifts.specs.Rule.{t};
ghost use Rattle.group.specs.Ranges.{NodeOf};
ghost use Rattle.lengths.specs.Lengths.{file_letters, node_letters, packet_length};
ghost use Rattle.sequences.specs.Steps.Rows.{RowOf};
ghost use Rattle.matrix.specs.Matrix.{packet, packets as product};
ghost use Rattle.matching.specs.Same.{SameFor};

use group::Group;
use lengths::known::{Known, Member};
use matching_windows as windows;
use matrix::encoding::Encoding;
use matrix::entries::Column;
use sequences::moved::Moved;
use sequences::rows::{self, Tabled};

// How many letters of what the node holds, from the front and through all its packets, are those that the file gives it.
pub fn right_letters(g: Group, node: usize, file: &[u8], held: &[u8]) -> usize
    requires node { NodeOf g node }
    requires lengths { (length file.now ≡ file_letters g) × (length held.now ≡ node_letters g node) }
    ensures { SameFor held.now (λ q. get_or (product xors g file.now node) q 0) result }
{
    let table = shifts::all();
    let encoding = Encoding {
        g,
        node,
        size: Member { g, node }.widened_in(&table),
        table: &table,
        file,
    };
    let shifts = rows::row(&Tabled { table: &table }, node);
    let expected = Expected {
        encoding: &encoding,
        shifts: &shifts,
    };
    expected.right_packets(held)
}

// What a node is to hold: its packets of a file, for which the row of its shifts is at hand.
#[derive(Clone, Copy)]
struct Expected<'a> {
    encoding: &'a Encoding<'a>,
    shifts: &'a [usize],
    ghost row: { RowOf t encoding.now.node shifts.now },
}

impl Expected<'_> {
    // Packet after packet, up to the first that isn't right.
    fn right_packets(&self, held: &[u8]) -> usize
        requires { length held.now ≡ node_letters self.now.encoding.now.g self.now.encoding.now.node }
        ensures { let e = self.now.encoding.now in SameFor held.now (λ q. get_or (product xors e.g e.file.now e.node) q 0) result }
    {
        let size = self.encoding.size;
        let mut end = 0;
        for j in 0..self.encoding.g.d {
            let start = end;
            end = start + size;
            let right = self.right_packet(j + 1, &held[start..end]);
            if right < size {
                return start + right;
            }
        }
        end
    }

    // The letters of packet `column`. Where the widest shift leaves at least a block to all entries, they are compared in blocks there; else every entry is a run that is added, as in
    // encoding.
    fn right_packet(&self, column: usize, held: &[u8]) -> usize
        requires column { (1 ≤ column) × (column ≤ self.now.encoding.now.g.d) }
        requires held { length held.now ≡ packet_length self.now.encoding.now.g self.now.encoding.now.node column }
        ensures { let e = self.now.encoding.now in SameFor held.now (λ q. get_or (packet xors e.g e.file.now e.node column) q 0) result }
    {
        let g = self.encoding.g;
        let starts = Column { g, column }.starts();
        let rows = laid_packets::rows_used(Known { g }, column);
        let runs = Moved {
            from: self.encoding.file,
            size: g.l,
            starts: &starts[0..rows],
            leads: self.shifts,
        };
        let widest = self.encoding.size - g.l;
        if g.l < widest + sums::BLOCK {
            return windows::seen(held, &runs, 0);
        }
        windows::same(held, &runs, widest, g.l)
    }
}
