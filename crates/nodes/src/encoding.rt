// Encoding: a node's packets from the file.
ghost use Rattle.std.specs.Prelude.{◌≡◌, length};
ghost use Rattle.letters.specs.Algebra.{xors};
ghost use Rattle.group.specs.Ranges.{NodeOf};
ghost use Rattle.lengths.specs.Lengths.{node_letters};
ghost use Rattle.matrix.specs.Matrix.{packets as product};
ghost use Rattle.nodes.specs.Calls.{Encoded};

use group::{Group, Refusal};
use lengths::known::{Known, Member};
use matrix::encoding::Encoding;

// Fills `packets` with the d packets of `node`, letter for letter the matrix product of the file.
// `file` has exactly B*L letters (else 5) and `packets` exactly T (else 6); refusals 1, 2 and 3 come before.
// A refused call leaves `packets` as it was.
pub fn encode(g: Group, node: usize, file: &[u8], packets: &mut [u8]) -> Result<usize, Refusal>
    ensures { Encoded g node file.now packets.old packets.new result }
{
    group_checks::node(g, node)?;
    encode_exact(Member { g, node }, file, packets)
}

// The same for a node of a group in range: refusals 5 and 6.
fn encode_exact(of: Member, file: &[u8], packets: &mut [u8]) -> Result<usize, Refusal>
    ensures { Encoded of.g of.node file.now packets.old packets.new result }
{
    let table = shifts::all();
    let g = of.g;
    let size = of.widened_in(&table);
    let wanted_file = Known { g }.file();
    group_checks::lengths(file.len(), wanted_file, packets.len(), g.d * size)?;
    let encoding = Encoding {
        g,
        node: of.node,
        size,
        table: &table,
        file,
    };
    encode_packets(&encoding, packets);
    Ok(0)
}

// The d packets, one after another. Where the widest shift leaves at least a block to all entries, each letter there is written once; else every entry is a run
// that is added, since what the two ends cost would be more than is saved.
fn encode_packets(encoding: &Encoding, packets: &mut [u8])
    requires { length packets.old ≡ node_letters encoding.now.g encoding.now.node }
    ensures { packets.new ≡ product xors encoding.now.g encoding.now.file.now encoding.now.node }
{
    let l = encoding.g.l;
    let widest = encoding.size - l;
    if l < widest + sums::BLOCK {
        added_packets::add_packets(encoding, packets);
    } else {
        laid_packets::lay_packets(encoding, packets);
    }
}
