// The sum of runs that are each moved right, seen through a window: where all of them have a letter in one pass, and at the two ends run by run.
ghost use Rattle.std.specs.Prelude.{◌+◌, ◌≤◌, length};
ghost use Rattle.sequences.specs.Steps.MovedRuns.{MovedRuns, AllSeen, SeenFrom, SeenStarts, Holding};

use crate::windows;

// Runs of `from`, of `size` letters each, that start at the indices in `starts` and are moved right by the leads: one for each start at least. They are two lists, since the starts
// go on to the sums alone, and the leads are a node's whole row of shifts.
#[derive(Clone, Copy)]
pub struct Moved<'a> {
    pub from: &'a [u8],
    pub size: usize,
    pub starts: &'a [usize],
    pub leads: &'a [usize],
    pub ghost runs: { MovedRuns starts.now leads.now (length starts.now) size (length from.now) },
}

impl Moved<'_> {
    // Fills `into` with the sum of the runs as it is seen through a window that leaves out its first `skip` places. From index `front` of the window up to `back` all of them
    // have a letter.
    pub fn lay_sum(&self, into: &mut [u8], skip: usize, front: usize, back: usize)
        requires { (AllSeen self.now.leads.now (length self.now.starts.now) self.now.size skip front back) × (back ≤ length into.old) }
        ensures { let m = self.now in Holding m.from.now m.starts.now m.leads.now (length m.starts.now) m.size skip into.old into.new }
    {
        self.add_each(&mut into[0..front], skip);
        self.lay_middle(&mut into[front..back], skip + front);
        self.add_each(&mut into[back..], skip + back);
    }

    // The same run by run, wherever they have letters.
    pub fn add_each(&self, into: &mut [u8], skip: usize)
        ensures { let m = self.now in Holding m.from.now m.starts.now m.leads.now (length m.starts.now) m.size skip into.old into.new }
    {
        windows::clear(into);
        for u in 0..self.starts.len() {
            let start = self.starts[u];
            let end = start + self.size;
            windows::add_seen(into, &self.from[start..end], skip, self.leads[u]);
        }
    }

    // Where each of the runs is seen from, where all of them have a letter from the window's start on.
    pub fn seen_starts(&self, skip: usize) -> [usize; 16]
        requires { SeenFrom self.now.starts.now self.now.leads.now (length self.now.starts.now) skip }
        ensures { SeenStarts self.now.starts.now self.now.leads.now (length self.now.starts.now) skip result }
    {
        seen_starts(self.starts, self.leads, skip)
    }

    // The same in one pass, where all of them have a letter all along.
    fn lay_middle(&self, into: &mut [u8], skip: usize)
        requires { AllSeen self.now.leads.now (length self.now.starts.now) self.now.size skip 0 (length into.old) }
        ensures { let m = self.now in Holding m.from.now m.starts.now m.leads.now (length m.starts.now) m.size skip into.old into.new }
    {
        let seen = self.seen_starts(skip);
        laid_sums::lay(into, self.from, &seen[..self.starts.len()]);
    }
}

// Where each run is seen from, where all of them have a letter from the window's start on: so much later as the window leaves out of it. (Two lists and no `Moved`: where the
// runs end isn't asked.)
pub fn seen_starts(starts: &[usize], leads: &[usize], skip: usize) -> [usize; 16]
    requires { SeenFrom starts.now leads.now (length starts.now) skip }
    ensures { SeenStarts starts.now leads.now (length starts.now) skip result }
{
    let mut seen = [0usize; 16];
    for u in 0..starts.len() {
        seen[u] = starts[u] + (skip - leads[u]);
    }
    seen
}
