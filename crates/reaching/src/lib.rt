// Which numbers bytes lead to, and how a head grows by further bytes.
#![tactic(auto)]

ghost use Rattle.std.specs.Prelude.{◌≡◌, true, [], ◌∷◌, ◌↔◌, ◌≤◌, ◌<◌};
ghost use Rattle.records.specs.Records.{total_limit, size_for};
ghost use Rattle.kinds.specs.Kinds.{head_size};
ghost use Rattle.heads.specs.Heads.{heads};
ghost use Rattle.heads.specs.Steps.Partly.{head_after};
ghost use Rattle.searching.specs.Steps.Search.{stands_at};
ghost use Rattle.reaching.specs.Numbers.{number_at};
ghost use Rattle.reaching.specs.Steps.Reaching.{Within, Stepped, HeadAt, CanBeWrong, Led};

use heads::bytes::Fitting;
use heads::{Head, bytes as head_bytes};
use records::sizes;

// So many bytes can stand in a share of so many letters, with its head of this kind in. (Where a head's numbers are out of range, there are none.)
pub fn within(kind: usize, letters: usize, at: usize) -> bool
    requires { letters < total_limit }
    ensures { (result ≡ true) ↔ Within kind letters at }
{
    if letters == 0 {
        return false;
    }
    at <= sizes::size_for(kinds::head_size(kind), letters)
}

// These are a head's numbers where so many bytes can stand.
fn head_at(head: Head, letters: usize, at: usize) -> bool
    requires { letters ≡ heads.total head }
    ensures { (result ≡ true) ↔ HeadAt head at }
{
    if at < kinds::head_size(head.kind) {
        return partly::partly_in(head, at);
    }
    within(head.kind, letters, at)
}

// How many of these bytes, which come after so many in a share of so many letters, are letters and full blocks with their kind: they stand,
// and but for a block's kind there is nothing to look at. Its kind and T tell them: a head that were handed on would be laid out for nothing.
pub fn stepped(bytes: &[u8], at: usize, kind: usize, letters: usize) -> usize
    requires { (head_size kind ≤ at) × (at ≤ size_for (head_size kind) letters) × (letters < total_limit) }
    ensures { Stepped kind at letters bytes.now result }
{
    let front = kinds::head_size(kind);
    let nth = sizes::record_at(front, at);
    let offset = sizes::offset_at(front, at);
    if offset == 0 {
        return skipping::past_full_blocks(bytes, 0, letters, nth - 1);
    }
    let left = skipping::letters_after(letters, nth, offset - 1);
    if bytes.len() <= left {
        return bytes.len();
    }
    skipping::past_full_blocks(bytes, left, letters, nth)
}

// A head's numbers where so many bytes can stand.
#[derive(Clone, Copy)]
pub struct Begun {
    pub head: Head,
    pub at: usize,
    pub ghost numbers: { HeadAt head at },
}

impl Begun {
    // The head's numbers once these bytes have come.
    pub fn head_with(self, bytes: &[u8]) -> Head
        ensures { result ≡ head_after self.head self.at bytes.now }
    {
        let head = self.head;
        let at = self.at;
        if kinds::head_size(head.kind) <= at {
            return head;
        }
        if at == 0 {
            return head_bytes::head_in(bytes);
        }
        partly::head_after(Fitting { head }, at, bytes)
    }

    // This byte can stand next.
    fn next_stands(self, byte: u8) -> bool
        ensures { result ≡ stands_at (head_after self.head self.at (byte ∷ [])) self.at byte }
    {
        let one = [byte];
        let with = self.head_with(&one);
        searching::first_wrong(&one, self.at, with, head_bytes::total(with)) == 1
    }

    // Some byte can't stand next: where 0 and 255 both can, any can, since it is a letter, or a byte of a number that isn't tested there.
    fn can_be_wrong(self) -> bool
        ensures { (result ≡ true) ↔ CanBeWrong self.head self.at }
    {
        if !self.next_stands(0) {
            return true;
        }
        !self.next_stands(255)
    }
}

// The number of what is wrong with a byte that can't stand at this index of a share of so many letters whose head is of this kind.
pub fn number_at(kind: usize, letters: usize, at: usize) -> usize
    requires { letters < total_limit }
    ensures { result ≡ number_at kind letters at }
{
    let front = kinds::head_size(kind);
    group::refusal_number(refusing::refusal_at(front, letters, at))
}

// Bytes lead to these numbers: a head where so many can stand, with a byte that couldn't only where some byte can't, and by the number of that place.
pub fn led(head: Head, letters: usize, at: usize, wrong: usize) -> bool
    requires { letters ≡ heads.total head }
    ensures { (result ≡ true) ↔ Led head at wrong }
{
    if !head_at(head, letters, at) {
        return false;
    }
    if wrong == 0 {
        return true;
    }
    if wrong != number_at(head.kind, letters, at) {
        return false;
    }
    Begun { head, at }.can_be_wrong()
}
