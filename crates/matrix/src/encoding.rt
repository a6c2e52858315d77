// A file that is encoded for a node.
ghost use Rattle.std.specs.Prelude.{◌≡◌, length};
ghost use Rattle.shifts.specs.Table.{Table};
ghost use Rattle.group.specs.Ranges.{NodeOf};
ghost use Rattle.lengths.specs.Lengths.{file_letters, packet_length};

use group::Group;

// A file, and the node whose packets of it are wanted, of `size` letters each. `table` has the shifts.
#[derive(Clone, Copy)]
pub struct Encoding<'a> {
    pub g: Group,
    pub node: usize,
    pub size: usize,
    pub table: &'a [u8],
    pub file: &'a [u8],
    pub ghost shifts: { Table table.now },
    pub ghost known: { NodeOf g node },
    pub ghost sized: { size ≡ packet_length g node 1 },
    pub ghost whole: { length file.now ≡ file_letters g },
}
