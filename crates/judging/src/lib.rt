// What bytes are: a share, the beginning of one, or neither. The search for the first byte that can't stand where it is tells.
#![tactic(auto)]

ghost use Rattle.std.specs.Prelude.{◌≡◌, ◌≤◌, ◌<◌};
ghost use Rattle.records.specs.Records.{block_size, total_limit, size_for};
ghost use Rattle.kinds.specs.Kinds.{head_size};
ghost use Rattle.judging.specs.Judging.{fault_number, Judges, CanStandTo, outcome_of};
ghost use Rattle.judging.specs.Steps.Judged.{judgment_at};

use group::Refusal;
use heads::{Head, bytes as head_bytes};
use records::sizes;

// What bytes are that are no share. `outcome_of` in specs/ gives each case, and a share's head, in the numbers of documents 01 and 02 (docs/SCHEME.md, 11).
#[derive(Clone, Copy, Debug, PartialEq, Eq)]
pub enum Fault {
    // 7: the beginning of some share, but not all of it. Reading also has 6.
    Refused(Refusal),
    // 8 to 12: neither, and the index of the first byte that can't stand there.
    Malformed(Refusal, usize),
}

impl Fault {
    // Its number in the table of documents 01 and 02 (docs/SCHEME.md, 11).
    pub fn number(self) -> usize
        ensures { result ≡ fault_number self }
    {
        match self {
            Fault::Refused(refusal) => group::refusal_number(refusal),
            Fault::Malformed(refusal, _) => group::refusal_number(refusal),
        }
    }
}

// Judges any bytes without copying letters: a share and its head, the beginning of one (7, no bytes included), or
// neither: what is wrong with them (8 to 12), and where.
pub fn judge(share: &[u8]) -> Result<Head, Fault>
    ensures { Judges share.now (outcome_of result) }
{
    let head = head_bytes::head_in(share);
    let letters = head_bytes::total(head);
    let at = searching::first_wrong(share, 0, head, letters);
    judged(head, letters, at, share.len())
}

// How many of these bytes can stand, from the front: all of them where they are a share or the beginning of one, else as many as stand before
// the first that can't.
pub fn good_bytes(share: &[u8]) -> usize
    ensures { CanStandTo share.now result }
{
    let head = head_bytes::head_in(share);
    searching::first_wrong(share, 0, head, head_bytes::total(head))
}

// How many bytes have to be in before a share with this head is complete: all of them, its end too.
fn bytes_to_see(front: usize, letters: usize) -> usize
    requires { (front ≤ block_size) × (letters < total_limit) }
    ensures { result ≡ size_for front letters }
{
    sizes::size_for(front, letters)
}

// What bytes are whose first wrong one is at this index: all of them stand if there is none.
pub fn judged(head: Head, letters: usize, at: usize, count: usize) -> Result<Head, Fault>
    requires { letters < total_limit }
    ensures { result ≡ judgment_at (head_size head.kind) head letters at count }
{
    let front = kinds::head_size(head.kind);
    if at < count {
        return Err(Fault::Malformed(refusing::refusal_at(front, letters, at), at));
    }
    if count == bytes_to_see(front, letters) {
        return Ok(head);
    }
    Err(Fault::Refused(Refusal::Unfinished))
}
