// The sum of a helper's packets, each moved right by the lost node's shift, as the window of its rank sees it.
#![tactic(auto)]

ghost use Rattle.std.specs.Prelude.{◌≡◌, length};
ghost use Rattle.letters.specs.Algebra.{xors};
ghost use Rattle.shifts.specs.Rule.{t};
ghost use Rattle.shifts.specs.Table.{Table};
ghost use Rattle.lengths.specs.Lengths.{packet_length, node_letters, repair_letters};
ghost use Rattle.matrix.specs.Repair.{helping};
ghost use Rattle.helper_sums.specs.Steps.Checked.{Helper};
ghost use Rattle.helper_sums.specs.Steps.Starts.{PacketStarts, Middle};

use group::Group;
use sequences::moved::Moved;
use sequences::rows::{self, Tabled};
use sequences::windows;

// What a helper of this rank holds, packets of `size` letters each, and the node that was lost. `table` has the shifts.
#[derive(Clone, Copy)]
pub struct Helping<'a> {
    pub g: Group,
    pub lost: usize,
    pub helper: usize,
    pub rank: usize,
    pub size: usize,
    pub table: &'a [u8],
    pub packets: &'a [u8],
    pub ghost shifts: { Table table.now },
    pub ghost nodes: { Helper g lost helper rank },
    pub ghost sized: { size ≡ packet_length g helper 1 },
    pub ghost held: { length packets.now ≡ node_letters g helper },
}

impl Helping<'_> {
    // The sum over the helper's packets. Where at least a block of the piece has a letter of every packet, each letter there is written once; else every packet is a run that is
    // added, since what the two ends cost would be more than is saved.
    pub fn sum_packets(&self, piece: &mut [u8])
        requires { length piece.old ≡ repair_letters self.now.g self.now.lost }
        ensures { let s = self.now in piece.new ≡ helping xors s.g s.lost s.helper s.rank s.packets.now }
    {
        let skip = self.skip();
        let widest = shifts::shift_in(self.table, self.lost, self.g.d);
        let front = widest.saturating_sub(skip);
        let back = piece.len().min(self.size.saturating_sub(skip));
        if back < front + sums::BLOCK {
            self.add_packets(piece);
        } else {
            self.lay_packets(front, back, piece);
        }
    }

    // How many places the window leaves out.
    fn skip(&self) -> usize
        ensures { result ≡ t self.now.helper self.now.rank }
    {
        shifts::shift_in(self.table, self.helper, self.rank)
    }

    // The same, cleared and then packet by packet.
    fn add_packets(&self, piece: &mut [u8])
        requires { length piece.old ≡ repair_letters self.now.g self.now.lost }
        ensures { let s = self.now in piece.new ≡ helping xors s.g s.lost s.helper s.rank s.packets.now }
    {
        let skip = self.skip();
        windows::clear(piece);
        let mut end = 0;
        for j in 0..self.g.d {
            let start = end;
            end = start + self.size;
            let lead = shifts::shift_in(self.table, self.lost, j + 1);
            windows::add_seen(piece, &self.packets[start..end], skip, lead);
        }
    }

    // The same in one pass from index `front` of the piece up to `back`, where every packet has a letter, and packet by packet at the two ends.
    fn lay_packets(&self, front: usize, back: usize, piece: &mut [u8])
        requires room { length piece.old ≡ repair_letters self.now.g self.now.lost }
        requires middle { let s = self.now in Middle s.g s.lost s.helper s.rank s.size front back (length piece.old) }
        ensures { let s = self.now in piece.new ≡ helping xors s.g s.lost s.helper s.rank s.packets.now }
    {
        let starts = self.packet_starts();
        let leads = rows::row(&Tabled { table: self.table }, self.lost);
        let runs = Moved {
            from: self.packets,
            size: self.size,
            starts: &starts[0..self.g.d],
            leads: &leads,
        };
        runs.lay_sum(piece, self.skip(), front, back);
    }

    // Where the helper's packets start.
    fn packet_starts(&self) -> [usize; 16]
        ensures { PacketStarts self.now.g self.now.helper result }
    {
        let mut starts = [0usize; 16];
        let mut start = 0;
        for j in 0..self.g.d {
            starts[j] = start;
            start += self.size;
        }
        starts
    }
}
