// A packet as the sum of the file's sequences, each moved right by the node's shift of it.
ghost use Rattle.std.specs.Prelude.{◌≡◌, ◌+◌, ◌≤◌, length};
ghost use Rattle.letters.specs.Algebra.{xors};
ghost use Rattle.preview_numbers.specs.Previews.{PreviewRange, PreviewNode, preview_file, preview_packet};
ghost use Rattle.preview_product.specs.Preview.{preview_letters};
ghost use Rattle.preview_packets.specs.Steps.Starts.{SequenceStarts};

use group::Group;
use preview_numbers::known::Member;
use sequences::moved::Moved;
use sequences::rows::{self, Previews};
use sequences::windows;

// Fills `packet`. Where the widest shift leaves at least a block to all sequences, each letter there is written once; else every sequence is a run that is added,
// since what the two ends cost would be more than is saved.
pub fn encode_packet(of: Member, file: &[u8], packet: &mut [u8])
    requires { (length file.now ≡ preview_file of.g) × (length packet.old ≡ preview_packet of.g of.node) }
    ensures { packet.new ≡ preview_letters xors of.g file.now of.node }
{
    let widest = packet.len() - of.g.l;
    if of.g.l < widest + sums::BLOCK {
        add_sequences(of, file, packet);
    } else {
        lay_sequences(of, file, packet);
    }
}

// The packet run by run, from zeros: sequence u is added from t(i,u) = i(u-1) on.
fn add_sequences(of: Member, file: &[u8], packet: &mut [u8])
    requires { (length file.now ≡ preview_file of.g) × (length packet.old ≡ preview_packet of.g of.node) }
    ensures { packet.new ≡ preview_letters xors of.g file.now of.node }
{
    windows::clear(packet);
    let mut shift = 0;
    let mut end = 0;
    for u in 0..of.g.k {
        let start = end;
        end = start + of.g.l;
        adding::add_run(packet, shift, &file[start..end]);
        shift += of.node;
    }
}

// The packet in one pass where all sequences have a letter, between the widest shift and L, and run by run at the two ends.
fn lay_sequences(of: Member, file: &[u8], packet: &mut [u8])
    requires wide { preview_packet of.g of.node ≤ of.g.l + of.g.l }
    requires lengths { (length file.now ≡ preview_file of.g) × (length packet.old ≡ preview_packet of.g of.node) }
    ensures { packet.new ≡ preview_letters xors of.g file.now of.node }
{
    let g = of.g;
    let starts = sequence_starts(g);
    let shifts = rows::row(&Previews, of.node);
    let widest = packet.len() - g.l;
    let runs = Moved {
        from: file,
        size: g.l,
        starts: &starts[0..g.k],
        leads: &shifts,
    };
    runs.lay_sum(packet, 0, widest, g.l);
}

// Where each of the k sequences of a file starts.
fn sequence_starts(g: Group) -> [usize; 16]
    requires { PreviewRange g }
    ensures { SequenceStarts g result }
{
    let mut starts = [0usize; 16];
    let mut start = 0;
    for u in 0..g.k {
        starts[u] = start;
        start += g.l;
    }
    starts
}
