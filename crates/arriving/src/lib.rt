// A share that is judged while it arrives: a small state takes bytes as they come, however they are cut, and tells at any moment what all
// bytes so far are. It keeps no letters.
#![tactic(auto)]

pub mod bursts;

ghost use Rattle.std.specs.Prelude.{MatchResult, Err, ◌≡◌, true, [], ◌↔◌, ◌^◌, ◌<◌};
ghost use Rattle.heads.specs.Heads.{heads};
ghost use Rattle.judging.specs.Judging.{outcome_of};
ghost use Rattle.reaching.specs.Numbers.{number_at};
ghost use Rattle.arriving.specs.States.{head_so_far, state_with, state_of, Leads};
ghost use Rattle.reaching.specs.Steps.Reaching.{Stepped};
ghost use Rattle.arriving.specs.Steps.Reaching.{StepsOver, PastHead};
ghost use Rattle.arriving.specs.Calls.{Takes, JudgesState, GoodBytesOf, Announces, coming_of};

use group::Refusal;
use heads::{Head, bytes as head_bytes};
use judging::Fault;
use reaching::Begun;
use records::sizes;

// The last batch number.
const LAST_BATCH: usize = 4294967295;

// The state. It is a function of all bytes so far, `state_of` in specs/, and of nothing else.
#[derive(Clone, Copy, Debug, PartialEq, Eq)]
pub struct Arriving {
    // How many bytes can stand so far. Once one couldn't, this is its index, and nothing is counted on.
    pub at: usize,
    // The number of what is wrong with that byte, 8 to 12, else 0. (A number and no Option: C owns the nine numbers of a state, and `state_of` and `JudgesState` speak of any.)
    pub wrong: usize,
    // The numbers of the head, as far as their bytes are in and can stand; a byte that isn't in counts as 0.
    pub n: usize,
    pub k: usize,
    pub d: usize,
    pub node: usize,
    pub l: usize,
    pub batch: usize,
    pub kind: usize,
}

// The share that is coming, as soon as its head is in: that head, and how many bytes it will have.
#[derive(Clone, Copy, Debug, PartialEq, Eq)]
pub struct Coming {
    pub head: Head,
    pub bytes: usize,
}

// A state from its head.
fn state_with(at: usize, wrong: usize, head: Head) -> Arriving
    ensures { result ≡ state_with at wrong head }
{
    let g = head.group;
    Arriving {
        at,
        wrong,
        n: g.n,
        k: g.k,
        d: g.d,
        node: head.node,
        l: g.l,
        batch: head.batch as usize,
        kind: head.kind,
    }
}

// The state once a byte couldn't stand at this index of a share with this head.
fn wrong_at(head: Head, at: usize) -> Arriving
    ensures { result ≡ state_with at (number_at head.kind (heads.total head) at) head }
{
    state_with(
        at,
        reaching::number_at(head.kind, head_bytes::total(head), at),
        head,
    )
}

impl Arriving {
    // The state of no bytes.
    pub fn start() -> Arriving
        ensures { result ≡ state_of [] }
    {
        Arriving {
            at: 0,
            wrong: 0,
            n: 0,
            k: 0,
            d: 0,
            node: 0,
            l: 0,
            batch: 0,
            kind: 0,
        }
    }

    // The head, as far as it is in.
    fn head_so_far(self) -> Head
        requires { self.batch < 2 ^ 32 }
        ensures { result ≡ head_so_far self }
    {
        let group = group::of(self.n, self.k, self.d, self.l);
        Head {
            group,
            node: self.node,
            batch: self.batch as u32,
            kind: self.kind,
        }
    }

    // Some bytes lead to this state.
    pub fn reached(self) -> bool
        ensures { (result ≡ true) ↔ Leads self }
    {
        if LAST_BATCH < self.batch {
            return false;
        }
        let head = self.head_so_far();
        reaching::led(head, head_bytes::total(head), self.at, self.wrong)
    }

    // How many of these bytes are stepped over: letters, and full blocks with their kind, after bytes that lead here and have their head in. In any
    // other state none are.
    pub fn stepped_over(self, bytes: &[u8]) -> usize
        ensures { StepsOver self bytes.now result }
    {
        if self.wrong != 0 {
            return 0;
        }
        if self.at < kinds::head_size(self.kind) {
            return 0;
        }
        if LAST_BATCH < self.batch {
            return 0;
        }
        let letters = head_bytes::total(self.head_so_far());
        if !reaching::within(self.kind, letters, self.at) {
            return 0;
        }
        reaching::stepped(bytes, self.at, self.kind, letters)
    }

    // The state after these bytes. One to which no bytes lead stays as it is.
    pub fn after(self, bytes: &[u8]) -> Arriving
        ensures { Takes self bytes.now result }
    {
        let start = self.stepped_over(bytes);
        if start == bytes.len() {
            let mut next = self;
            next.at = self.at + start;
            return next;
        }
        bursts::after_steps(self, bytes, start)
    }

    // The same where the first `start` bytes are stepped over.
    pub fn after_steps(self, bytes: &[u8], start: usize) -> Arriving
        requires { StepsOver self bytes.now start }
        ensures { Takes self bytes.now result }
    {
        bursts::after_steps(self, bytes, start)
    }

    // The same where the first `start` bytes are stepped over, and there are some: the search tells how far the others stand.
    fn searched(self, bytes: &[u8], start: usize, letters: usize) -> Arriving
        requires { PastHead self letters × Stepped self.kind self.at letters bytes.now start }
        ensures { Takes self bytes.now result }
    {
        let at = self.at;
        let head = self.head_so_far();
        let good = start + searching::first_wrong(&bytes[start..], at + start, head, letters);
        let end = at + good;
        if good < bytes.len() {
            return wrong_at(head, end);
        }
        state_with(end, 0, head)
    }

    // The same in any state: the head may not be in, or a byte was wrong already.
    fn in_head(self, bytes: &[u8]) -> Arriving
        ensures { Takes self bytes.now result }
    {
        if !self.reached() {
            return self;
        }
        if 0 < self.wrong {
            return self;
        }
        let at = self.at;
        let head = self.head_so_far();
        let begun = Begun { head, at };
        let with = begun.head_with(bytes);
        let good = searching::first_wrong(bytes, at, with, head_bytes::total(with));
        let end = at + good;
        if good == bytes.len() {
            return state_with(end, 0, with);
        }
        let before = begun.head_with(&bytes[..good]);
        wrong_at(before, end)
    }

    // What all bytes so far are: a share and its head, the beginning of one (7), or what is wrong with them (8 to 12), and where. A state to which no
    // bytes lead is judged 8 at 0.
    pub fn judge(self) -> Result<Head, Fault>
        ensures { JudgesState self (outcome_of result) }
    {
        if LAST_BATCH < self.batch {
            return Err(Fault::Malformed(Refusal::Kind, 0));
        }
        let head = self.head_so_far();
        let letters = head_bytes::total(head);
        if !reaching::led(head, letters, self.at, self.wrong) {
            return Err(Fault::Malformed(Refusal::Kind, 0));
        }
        // Where a byte was wrong, more bytes came than can stand; how many more makes no difference.
        judging::judged(head, letters, self.at, self.at + self.wrong)
    }

    // How many bytes can stand, of all so far; 0 in a state to which no bytes lead.
    pub fn good_bytes(self) -> usize
        ensures { GoodBytesOf self result }
    {
        if self.reached() {
            return self.at;
        }
        0
    }

    // All bytes so far stand; else what is wrong with them, and where, as the judge has it.
    fn all_stand(self) -> Result<(), Fault>
        ensures { MatchResult result (λ u. (Leads self) × (self.wrong ≡ 0)) (λ fault. Announces self (coming_of (Err fault))) }
    {
        match self.judge() {
            Ok(_) => Ok(()),
            Err(fault) => match fault {
                Fault::Refused(_) => Ok(()),
                Fault::Malformed(_, _) => Err(fault),
            },
        }
    }

    // Whose share is coming and how many bytes it will have, as soon as its head is in, complete or not. 7 while it isn't, and 8 to 12 with the index of the first byte that can't
    // stand there, as the judge has them.
    pub fn coming(self) -> Result<Coming, Fault>
        ensures { Announces self (coming_of result) }
    {
        self.all_stand()?;
        if self.at < kinds::head_size(self.kind) {
            return Err(Fault::Refused(Refusal::Unfinished));
        }
        let head = self.head_so_far();
        let front = kinds::head_size(head.kind);
        let bytes = sizes::size_for(front, head_bytes::total(head));
        Ok(Coming { head, bytes })
    }
}

// Takes bytes, zero or many, into the state where it lies.
pub fn take(state: &mut Arriving, bytes: &[u8])
    ensures { Takes state.old bytes.now state.new }
{
    *state = state.after(bytes);
}
