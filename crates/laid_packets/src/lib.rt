// Packets whose letters are each written once where all entries of the column have one, between the widest shift and L.
#![tactic(auto)]

ghost use Rattle.std.specs.Prelude.{◌≡◌, ◌+◌, ◌≤◌, length};
ghost use Rattle.letters.specs.Algebra.{xors};
ghost use Rattle.shifts.specs.Rule.{t};
ghost use Rattle.lengths.specs.Lengths.{node_letters, packet_length};
ghost use Rattle.sequences.specs.Steps.Rows.{RowOf};
ghost use Rattle.matrix.specs.Matrix.{packet, packets as product};
ghost use Rattle.laid_packets.specs.Steps.Rows.{RowsUsed};

use lengths::known::Known;
use matrix::encoding::Encoding;
use matrix::entries::Column;
use sequences::moved::Moved;
use sequences::rows::{self, Tabled};

// The d packets, one after another.
pub fn lay_packets(encoding: &Encoding, packets: &mut [u8])
    requires size { encoding.now.size ≤ encoding.now.g.l + encoding.now.g.l }
    requires lengths { length packets.old ≡ node_letters encoding.now.g encoding.now.node }
    ensures { packets.new ≡ product xors encoding.now.g encoding.now.file.now encoding.now.node }
{
    let table = encoding.table;
    let shifts = rows::row(&Tabled { table }, encoding.node);
    let mut end = 0;
    for j in 0..encoding.g.d {
        let start = end;
        end = start + encoding.size;
        lay_packet(encoding, j + 1, &shifts, &mut packets[start..end]);
    }
}

// Packet `column` of the node: the sum of the column's entries, each moved right by the node's shift of its row.
fn lay_packet(encoding: &Encoding, column: usize, shifts: &[usize], letters: &mut [u8])
    requires shifts { RowOf t encoding.now.node shifts.now }
    requires column { (1 ≤ column) × (column ≤ encoding.now.g.d) × (encoding.now.size ≤ encoding.now.g.l + encoding.now.g.l) }
    requires letters { length letters.old ≡ packet_length encoding.now.g encoding.now.node column }
    ensures { letters.new ≡ packet xors encoding.now.g encoding.now.file.now encoding.now.node column }
{
    let g = encoding.g;
    let starts = Column { g, column }.starts();
    let rows = rows_used(Known { g }, column);
    let runs = Moved {
        from: encoding.file,
        size: g.l,
        starts: &starts[0..rows],
        leads: shifts,
    };
    runs.lay_sum(letters, 0, encoding.size - g.l, g.l);
}

// How many rows of a column are to be summed: the others are in the zero corner.
pub fn rows_used(of: Known, column: usize) -> usize
    ensures { RowsUsed of.g column result }
{
    if of.g.k < column {
        return of.g.k;
    }
    of.g.d
}
