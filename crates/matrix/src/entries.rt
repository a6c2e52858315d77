// Where the matrix's entries stand in a file, and in the collector's buffer, which is laid out the same.
ghost use Rattle.std.specs.Prelude.{◌≡◌, ◌+◌, ◌-◌, ◌*◌, ◌≤◌};
ghost use Rattle.group.specs.Ranges.{InRange};
ghost use Rattle.lengths.specs.Lengths.{file_letters};
ghost use Rattle.matrix.specs.Matrix.{before, entry_number, entry_start};
ghost use Rattle.matrix.specs.Matrix.{Free};
ghost use Rattle.matrix.specs.Steps.Starts.{StartsOf};

use group::Group;

// How many sequences stand before a column.
pub fn sequences_before(k: usize, column: usize) -> usize
    requires { (1 ≤ k) × (k ≤ 15) × (1 ≤ column) × (column ≤ 16) }
    ensures { (result ≡ before k column) × (result ≤ 360) }
{
    if column <= k {
        return column * (column - 1) / 2;
    }
    k * (k + 1) / 2 + (column - k - 1) * k
}

// The index at which a free entry starts: `row` is at most `column` and at most k.
pub fn free_start(g: Group, row: usize, column: usize) -> usize
    requires { Free g row column }
    ensures { (result ≡ (entry_number g.k row column - 1) * g.l) × (result + g.l ≤ file_letters g) }
{
    (sequences_before(g.k, column) + row - 1) * g.l
}

// A column of the matrix, of a group whose numbers are in range.
#[derive(Clone, Copy)]
pub struct Column {
    pub g: Group,
    pub column: usize,
    pub ghost in_range: { InRange g },
    pub ghost there: { (1 ≤ column) × (column ≤ g.d) },
}

impl Column {
    // Where the entry of the next row starts, from where this row's does. Above the diagonal that is one sequence on;
    // from the diagonal on the matrix is symmetric, so that it is a whole column on, of `row` or k sequences.
    pub fn next_start(self, row: usize, start: usize) -> usize
        requires entry { (1 ≤ row) × (row ≤ self.g.d) }
        requires start { start ≡ entry_start self.g row self.column }
        ensures { result ≡ entry_start self.g (row + 1) self.column }
    {
        if row < self.column {
            return start + self.g.l;
        }
        start + row.min(self.g.k) * self.g.l
    }

    // Where the entries start, row by row from the first to the d-th.
    pub fn starts(self) -> [usize; 16]
        ensures { StartsOf self.g self.column result }
    {
        let mut starts = [0usize; 16];
        let mut start = free_start(self.g, 1, self.column);
        for row in 0..self.g.d {
            starts[row] = start;
            start = self.next_start(row + 1, start);
        }
        starts
    }
}
