// The chosen nodes' shifts, laid out as the solver wants them, and those of one node, under either code's rule.
ghost use Rattle.shifts.specs.Rule.{ShiftRule, t, preview_shift};
ghost use Rattle.std.specs.Prelude.{◌≡◌, ◌≤◌};
ghost use Rattle.shifts.specs.Table.{Table};
ghost use Rattle.sequences.specs.Steps.Rows.{Known, RowsOf, RowOf};

// A rule of shifts that can be read by node and column.
pub trait Rule {
    ghost shift: { ShiftRule };

    fn shift(&self, node: usize, column: usize) -> usize
        requires { (1 ≤ node) × (node ≤ 16) × (1 ≤ column) × (column ≤ 16) }
        ensures { result ≡ shift node column };
}

// The rule of the code that repairs, read in its table.
#[derive(Clone, Copy)]
pub struct Tabled<'a> {
    pub table: &'a [u8],
    pub ghost right: { Table table.now },
}

impl Rule for Tabled<'_> {
    ghost shift = { t };

    fn shift(&self, node: usize, column: usize) -> usize {
        shifts::shift_in(self.table, node, column)
    }
}

// The previews' rule.
#[derive(Clone, Copy)]
pub struct Previews;

impl Rule for Previews {
    ghost shift = { preview_shift };

    fn shift(&self, node: usize, column: usize) -> usize {
        shifts::preview_shift(node, column)
    }
}

// The shift of each node and column: sixteen columns to a row, a row for each id in turn.
pub fn of<R: Rule>(rule: &R, ids: &[usize]) -> [usize; 256]
    requires { Known ids.now }
    ensures { RowsOf R.shift ids.now result }
{
    let mut rows = [0usize; 256];
    for i in 0..ids.len() * 16 {
        rows[i] = rule.shift(ids[i / 16], i % 16 + 1);
    }
    rows
}

// The rows of these ids under the repairing code's rule, for whoever has no table: it is laid out here.
pub fn shift_rows(ids: &[usize]) -> [usize; 256]
    requires { Known ids.now }
    ensures { RowsOf t ids.now result }
{
    let table = shifts::all();
    of(&Tabled { table: &table }, ids)
}

// The shifts of one node, one for each column.
pub fn row<R: Rule>(rule: &R, node: usize) -> [usize; 16]
    requires { (1 ≤ node) × (node ≤ 16) }
    ensures { RowOf R.shift node result }
{
    let mut row = [0usize; 16];
    for j in 0..16 {
        row[j] = rule.shift(node, j + 1);
    }
    row
}
