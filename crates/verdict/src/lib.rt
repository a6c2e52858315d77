// The line that the judge writes for any bytes (docs/SCHEME.md, 13). It is made here and nowhere else, so that every program that writes
// it writes the same.
#![tactic(auto)]

ghost use Rattle.io.specs.Counts.{IsPrefixLen};
ghost use Rattle.text.specs.Text.{Put};
ghost use Rattle.judging.specs.Judging.{outcome_of};
ghost use Rattle.verdict.specs.Line.{Told, judgment_line};

use heads::{Head, bytes as head_bytes};
use share::Fault;
use verdict_words::{put_complete, put_malformed};

// Puts the line of a judgment at the start of `line`, whose other bytes stay as they were. The answer is how many bytes it has, the end of
// the line included. A share of any length has one, and its bytes needn't be there.
#[tactic(auto, using(crate::proofs::Telling::counted))]
pub fn judgment_line(judgment: Result<Head, Fault>, line: &mut [u8; 192]) -> usize
    ensures text { Put line.old 0 (judgment_line (outcome_of judgment)) result line.new }
    ensures within { IsPrefixLen result line.new }
{
    match judgment {
        Ok(head) => put_complete(head, head_bytes::total(head), line),
        Err(Fault::Refused(_)) => text::put(line, 0, b"unfinished\n"),
        Err(Fault::Malformed(refusal, at)) => {
            put_malformed(group::refusal_number(refusal), at, line)
        }
    }
}

// Puts the line for these bytes, in the same way.
#[tactic(auto, using(crate::proofs::Telling::counted, crate::proofs::Telling::told_long, crate::proofs::Telling::told_judged))]
pub fn line(bytes: &[u8], line: &mut [u8; 192]) -> usize
    ensures told { Told bytes.now line.old result line.new }
    ensures within { IsPrefixLen result line.new }
{
    if 65536 < bytes.len() {
        return text::put(line, 0, b"too long for this program\n");
    }
    judgment_line(share::judge(bytes), line)
}
