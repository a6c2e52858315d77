// Reading a share: its letters, where the bytes are one and there is room for exactly them.
#![tactic(auto)]

ghost use Rattle.layout.specs.Judgment.{IsShareOf};
ghost use Rattle.heads.specs.Heads.{heads};
ghost use Rattle.judging.specs.Judging.{outcome_of};
ghost use Rattle.reading.specs.Reading.{Reads};

use group::Refusal;
use heads::{Head, bytes as head_bytes};
use judging::Fault;

// Reads any bytes. Of a share, the answer is the head, and `packets`, which must have exactly T letters, then holds its
// letters. A refused call leaves `packets` as it was. Refusals: 7 to 12, and then 6.
// (The lemmas that are named settle any exit, so that a must-fail edit that adds one is refused for what it answers.)
#[tactic(auto, using(crate::proofs::Verdicts::found_refused, crate::proofs::Verdicts::found_malformed, crate::proofs::Verdicts::found_fault))]
pub fn read(share: &[u8], packets: &mut [u8]) -> Result<Head, Fault>
    ensures { Reads share.now packets.old (outcome_of result) packets.new }
{
    let head = judging::judge(share)?;
    fitting(share, packets, head)
}

// Reads the letters of a share, if there is room for exactly them: refusal 6.
fn fitting(share: &[u8], packets: &mut [u8], head: Head) -> Result<Head, Fault>
    requires { IsShareOf heads head share.now }
    ensures { Reads share.now packets.old (outcome_of result) packets.new }
{
    if packets.len() != head_bytes::total(head) {
        return Err(Fault::Refused(Refusal::Output));
    }
    block_letters::reading::copy_letters(kinds::head_size(head.kind), share, packets);
    Ok(head)
}
