// A part of what a caller lent, handed back where it stands.
#![tactic(auto)]

ghost use Rattle.std.specs.Prelude.{length};
ghost use Rattle.group.specs.Answers.{number_of, value_of};
ghost use Rattle.handing.specs.Parts.{PartOf, Within};

use group::Refusal;

// The part of `lent` with `count` letters from the index on that is answered, uncopied. Where it is refused, the empty part.
pub fn part<'a>(start: Result<usize, Refusal>, count: usize, lent: &'a [u8]) -> &'a [u8]
    requires { Within start count (length lent.now) }
    ensures { PartOf (number_of start) (value_of start) count lent.entry result }
{
    match start {
        Err(_) => &lent[0..0],
        Ok(from) => {
            let end = from + count;
            &lent[from..end]
        }
    }
}
