// Every length of a group whose numbers are known to be in range.
ghost use Rattle.std.specs.Prelude.{◌≡◌, ◌+◌, ◌≤◌};
ghost use Rattle.shifts.specs.Rule.{t};
ghost use Rattle.shifts.specs.Table.{Table};
ghost use Rattle.lengths.specs.Lengths.{sequences, file_letters, packet_start, node_letters, repair_letters, repair_buffer};
ghost use Rattle.group.specs.Ranges.{longest_packet, InRange, NodeOf};

use group::Group;

// A group whose numbers are in range.
#[derive(Clone, Copy)]
pub struct Known {
    pub g: Group,
    pub ghost in_range: { InRange g },
}

impl Known {
    // B, the sequences of a file.
    pub fn sequences(self) -> usize
        ensures { result ≡ sequences self.g }
    {
        let g = self.g;
        g.k * g.d - g.k * (g.k - 1) / 2
    }

    // The letters of a file, B*L.
    pub fn file(self) -> usize
        ensures { result ≡ file_letters self.g }
    {
        self.sequences() * self.g.l
    }
}

// A node of a group whose numbers are in range.
#[derive(Clone, Copy)]
pub struct Member {
    pub g: Group,
    pub node: usize,
    pub ghost of: { NodeOf g node },
}

impl Member {
    // A sequence's letters and the most that the node moves one by: L + t(i,d). The table is lent, for who needs it for more than this.
    pub fn widened_in(self, table: &[u8]) -> usize
        requires { Table table.now }
        ensures { (result ≡ self.g.l + t self.node self.g.d) × (result ≤ longest_packet) }
    {
        self.g.l + shifts::shift_in(table, self.node, self.g.d)
    }

    // The same for this alone.
    fn widened(self) -> usize
        ensures { (result ≡ self.g.l + t self.node self.g.d) × (result ≤ longest_packet) }
    {
        self.g.l + shifts::shift(self.node, self.g.d)
    }

    // The index at which a packet of the node starts.
    pub fn packet_start(self, column: usize) -> usize
        requires { (1 ≤ column) × (column ≤ self.g.d) }
        ensures { result ≡ packet_start self.g self.node column }
    {
        (column - 1) * self.widened()
    }

    // T, the letters that the node holds.
    pub fn letters(self) -> usize
        ensures { result ≡ node_letters self.g self.node }
    {
        self.g.d * self.widened()
    }

    // L', the letters of the piece that a helper sends for the node, if it is lost.
    pub fn repair_letters(self) -> usize
        ensures { result ≡ repair_letters self.g self.node }
    {
        self.widened()
    }

    // The letters of the buffer in which it is repaired: d pieces of L'.
    pub fn repair_buffer(self) -> usize
        ensures { result ≡ repair_buffer self.g self.node }
    {
        self.g.d * self.repair_letters()
    }
}
