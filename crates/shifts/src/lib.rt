// The shift of each node and column: how many places to the right a node moves the sequences of a column.
#![tactic(auto)]

mod table;

ghost use Rattle.std.specs.Prelude.{◌≡◌, ◌≤◌};
ghost use Rattle.shifts.specs.Rule.{t, preview_shift};
ghost use Rattle.shifts.specs.Table.{Table};

// The table of every shift. A constant is laid out anew wherever it is read, so who needs many shifts takes the table once.
pub fn all() -> [u8; 256]
    ensures { Table result }
{
    table::SHIFTS
}

// The shift of `node` at `column`, both from 1 to 16, read in the table.
pub fn shift_in(table: &[u8], node: usize, column: usize) -> usize
    requires table { Table table.now }
    requires numbers { (1 ≤ node) × (node ≤ 16) × (1 ≤ column) × (column ≤ 16) }
    ensures { result ≡ t node column }
{
    table[(node - 1) * 16 + (column - 1)] as usize
}

// The rule, for one node more than the table has.
fn product(node: usize, column: usize) -> usize
    requires { (1 ≤ node) × (node ≤ 17) × (1 ≤ column) × (column ≤ 16) }
    ensures { (result ≡ t node column) × (result ≤ 240) }
{
    (node - 1) * (column - 1)
}

// The same for one shift alone, by the rule: to lay the table out for it takes ten times as long.
pub fn shift(node: usize, column: usize) -> usize
    requires { (1 ≤ node) × (node ≤ 16) × (1 ≤ column) × (column ≤ 16) }
    ensures { result ≡ t node column }
{
    product(node, column)
}

// The shift of `node` at `column` under the previews' rule, which is that of the node after it: so node 16's is outside the table.
pub fn preview_shift(node: usize, column: usize) -> usize
    requires { (1 ≤ node) × (node ≤ 16) × (1 ≤ column) × (column ≤ 16) }
    ensures { (result ≡ preview_shift node column) × (result ≤ 240) }
{
    product(node + 1, column)
}
