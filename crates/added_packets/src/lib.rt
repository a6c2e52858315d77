// Packets summed run by run: for sequences that are short beside the shifts.
#![tactic(auto)]

ghost use Rattle.std.specs.Prelude.{◌≡◌, ◌+◌, ◌≤◌, length};
ghost use Rattle.letters.specs.Algebra.{xors};
ghost use Rattle.shifts.specs.Rule.{t};
ghost use Rattle.lengths.specs.Lengths.{node_letters, packet_length};
ghost use Rattle.matrix.specs.Matrix.{entry_start, matrix, packet, packets as product};
ghost use Rattle.sequences.specs.Steps.Windows.{Adds, Zeros};

use matrix::encoding::Encoding;
use matrix::entries::{self, Column};
use sequences::windows;

// The d packets, one after another: cleared, and then each entry added.
pub fn add_packets(encoding: &Encoding, packets: &mut [u8])
    requires { length packets.old ≡ node_letters encoding.now.g encoding.now.node }
    ensures { packets.new ≡ product xors encoding.now.g encoding.now.file.now encoding.now.node }
{
    windows::clear(packets);
    let mut end = 0;
    for j in 0..encoding.g.d {
        let start = end;
        end = start + encoding.size;
        add_packet(encoding, j + 1, &mut packets[start..end]);
    }
}

// Packet `column` of the node, from zeros: the sum of the column's d entries, each moved right by the node's shift of its row.
fn add_packet(encoding: &Encoding, column: usize, letters: &mut [u8])
    requires column { (1 ≤ column) × (column ≤ encoding.now.g.d) }
    requires letters { (length letters.old ≡ packet_length encoding.now.g encoding.now.node column) × Zeros letters.old }
    ensures { letters.new ≡ packet xors encoding.now.g encoding.now.file.now encoding.now.node column }
{
    let g = encoding.g;
    let of = Column { g, column };
    let mut start = entries::free_start(g, 1, column);
    for above in 0..g.d {
        let row = above + 1;
        add_entry(encoding, column, row, start, letters);
        start = of.next_start(row, start);
    }
}

// Adds entry (row, column) of the matrix, which starts at index `start` of the file, moved right by t(node, row), to a packet. In the zero corner there is nothing to add.
fn add_entry(encoding: &Encoding, column: usize, row: usize, start: usize, letters: &mut [u8])
    requires entry { let e = encoding.now in (1 ≤ column) × (column ≤ e.g.d) × (1 ≤ row) × (row ≤ e.g.d) × (start ≡ entry_start e.g row column) }
    requires letters { length letters.old ≡ packet_length encoding.now.g encoding.now.node column }
    ensures { let e = encoding.now in Adds (matrix xors e.g e.file.now row column) 0 (t e.node row) letters.old letters.new }
{
    let g = encoding.g;
    if g.k < column {
        if g.k < row {
            return;
        }
    }
    let end = start + g.l;
    let shift = shifts::shift_in(encoding.table, encoding.node, row);
    adding::add_run(letters, shift, &encoding.file[start..end]);
}
