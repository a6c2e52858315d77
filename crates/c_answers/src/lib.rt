// Answers as C has them: a number returned, and the value in a lent number.
#![tactic(auto)]

ghost use Rattle.std.specs.Prelude.{◌≡◌};
ghost use Rattle.group.specs.Answers.{number_of, value_of, if_fine};

use group::Refusal;

// Returns an answer's number. Where there is no refusal its value goes to `into`, which else stays as it was.
pub fn tell(answer: Result<usize, Refusal>, into: &mut usize) -> usize
    ensures { (result ≡ number_of answer) × (into.new ≡ if_fine (number_of answer) (value_of answer) into.old) }
{
    match answer {
        Ok(value) => {
            *into = value;
            0
        }
        Err(refusal) => group::refusal_number(refusal),
    }
}
