// The nodes from whose pieces a file is recovered.
ghost use Rattle.shifts.specs.Rule.{t};
ghost use Rattle.sequences.specs.Steps.Rows.{RowsOf};
ghost use Rattle.matrix.specs.Pieces.{Chosen};

use group::Group;

// The ids of k nodes of a group, which fall, and the rows of their shifts.
#[derive(Clone, Copy)]
pub struct Senders<'a> {
    pub g: Group,
    pub ids: &'a [usize],
    pub rows: &'a [usize],
    pub ghost chosen: { Chosen g g.k ids.now },
    pub ghost shifts: { RowsOf t ids.now rows.now },
}
