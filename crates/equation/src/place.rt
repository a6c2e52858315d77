// The shifts of a system, read by rank and column.
ghost use Rattle.std.specs.Prelude.{◌≡◌, ◌≤◌, length};
ghost use Rattle.equation.specs.Rows.{shift_in};

// The shift of the node of rank `b` at column `a`.
pub fn shift_in(rows: &[usize], b: usize, a: usize) -> usize
    requires { (length rows.now ≡ 256) × (1 ≤ b) × (b ≤ 16) × (1 ≤ a) × (a ≤ 16) }
    ensures { result ≡ shift_in rows.now b a }
{
    rows[(b - 1) * 16 + (a - 1)]
}
