// How a byte is refused that can't stand where it is: where it would stand decides.
#![tactic(auto)]

ghost use Rattle.std.specs.Prelude.{◌≡◌, ◌≤◌, ◌<◌};
ghost use Rattle.records.specs.Records.{block_size, total_limit};
ghost use Rattle.refusing.specs.Steps.Refusing.{refusal_at};

use group::Refusal;
use records::sizes;

// At this index of a share of so many letters whose head has this size. Any byte can be a letter, so in a block that has letters it is the kind
// or a filler byte. (T alone is asked, and neither the blocks nor the share's size: whoever searches would carry them along for this.)
pub fn refusal_at(front: usize, letters: usize, at: usize) -> Refusal
    requires { (front ≤ block_size) × (letters < total_limit) }
    ensures { result ≡ refusal_at front letters at }
{
    if at == 0 {
        return Refusal::Kind;
    }
    if at < front {
        return Refusal::HeadNumber;
    }
    let offset = (at - front) % sizes::BLOCK_SIZE;
    let before = (at - front) / sizes::BLOCK_SIZE * sizes::BLOCK_LETTERS;
    if letters + sizes::BLOCK_LETTERS <= before {
        return Refusal::AfterEnd;
    }
    if offset == 0 {
        return Refusal::Kind;
    }
    if before < letters {
        return Refusal::Filler;
    }
    if offset < sizes::END_SIZE {
        return Refusal::Total;
    }
    Refusal::AfterEnd
}
