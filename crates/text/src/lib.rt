// Text put into a line, word by word. A line and an index in it are two parameters, since `Put` in specs/ says what the whole line then holds.
#![tactic(auto)]

ghost use Rattle.std.specs.Prelude.{◌+◌, ◌≤◌, length};
ghost use Rattle.text.specs.Text.{Put, numbered};

// Puts words at index `at`. The answer is the index after them. They must fit.
pub fn put(line: &mut [u8], at: usize, words: &[u8]) -> usize
    requires { at + length words.now ≤ length line.old }
    ensures { Put line.old at words.now result line.new }
{
    let end = at + words.len();
    line[at..end].copy_from_slice(words);
    end
}

// Puts words and a number in decimal after them. The answer is the index after it; a number takes at most 20 digits.
#[tactic(auto, using(crate::proofs::Decimals::few))]
pub fn put_number(line: &mut [u8], at: usize, words: &[u8], n: usize) -> usize
    requires { at + length words.now + 20 ≤ length line.old }
    ensures text { Put line.old at (numbered words.now n) result line.new }
    ensures short { result ≤ at + length words.now + 20 }
{
    let mut digits = [0u8; 20];
    let count = io::decimal(n as u64, &mut digits);
    let after = put(line, at, words);
    put(line, after, &digits[..count])
}
