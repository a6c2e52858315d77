// What is written behind a line. Each of these words is written by a function that does little else: what is proved of a literal grows
// with all that is at hand beside it.
use group::Refusal;

// A heading has nothing behind it.
pub fn nothing() {
    lines::say(b"\n");
}

// The letters of a slice.
pub fn shown(letters: &[u8]) {
    lines::letters(b":", letters);
}

// The number that stands for a slice, which ends the line: a refused call that wrote something is seen by it.
pub fn sum(letters: &[u8]) {
    let sum = lines::checksum(letters);
    lines::number(b" sum ", sum);
    lines::say(b"\n");
}

// The number of an answer, and its value.
fn told(number: usize, value: usize) {
    lines::number(b": ", number);
    lines::number(b" value ", value);
}

// An answer: its number in the table of document 01 (docs/SCHEME.md, 11), 0 where nothing is refused, and its value.
pub fn answer(answer: Result<usize, Refusal>) {
    told(group::answer_number(answer), lines::value(answer));
}

// Some words, and numbers after them.
pub fn numbers(words: &[u8], numbers: &[usize]) {
    lines::say(words);
    for number in numbers {
        lines::number(b" ", *number);
    }
}
