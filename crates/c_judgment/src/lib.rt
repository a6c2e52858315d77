// How a head and a judgment are told: seven numbers, and the number of what the bytes are.
#![tactic(auto)]

ghost use Rattle.std.specs.Prelude.{◌≡◌, length};
ghost use Rattle.judging.specs.Judging.{outcome_of};
ghost use Rattle.c_judgment.specs.Judgments.{seven, TellsJudgment};

use heads::Head;
use judging::Fault;

// Puts a head's seven numbers.
pub fn put_head(head: Head, into: &mut [usize])
    requires { length into.old ≡ 7 }
    ensures { into.new ≡ seven head }
{
    into[0] = head.group.n;
    into[1] = head.group.k;
    into[2] = head.group.d;
    into[3] = head.node;
    into[4] = head.group.l;
    into[5] = head.batch as usize;
    into[6] = head.kind;
}

// Tells a judgment: its number, and a share's head where there is room for seven numbers, else 6.
// (The lemmas that are named settle any arm, so that a must-fail edit that adds one is refused for what it answers.)
#[tactic(auto, using(crate::proofs::Told::told_malformed, crate::proofs::Told::told_refused, crate::proofs::Told::told_fault))]
pub fn put_judgment(judgment: Result<Head, Fault>, head: &mut [usize]) -> usize
    ensures { TellsJudgment head.old (outcome_of judgment) result head.new }
{
    match judgment {
        Ok(found) => {
            if head.len() != 7 {
                return 6;
            }
            put_head(found, head);
            0
        }
        Err(fault) => fault.number(),
    }
}
