// Words, numbers and letters on standard output, by the kit's `io`, which asks for no handle: by the runtime's `print!` every function of the test programs that writes would take one
// (as those of `verdict_runs` do).
use group::Refusal;

// Standard output's descriptor.
const STDOUT: i32 = 1;

pub fn say(words: &[u8]) {
    io::write_all(STDOUT, words);
}

// A number.
pub fn decimal(n: usize) {
    io::print_decimal(STDOUT, n as u64);
}

// Some words and a number after them.
pub fn number(words: &[u8], n: usize) {
    say(words);
    decimal(n);
}

// A letter as two hexadecimal digits.
fn letter(letter: u8) {
    say(b" ");
    io::print_hex(STDOUT, letter as u64, 2);
}

// Some words, and the letters after them.
pub fn letters(words: &[u8], letters: &[u8]) {
    say(words);
    for letter in letters {
        self::letter(*letter);
    }
}

// One step of the number that stands for many letters.
fn add(sum: usize, letter: u8) -> usize {
    (sum % 4294967291 * 31 + letter as usize + 1) % 4294967291
}

// A number that stands for all letters of `letters`: it changes with any of them, and with their order.
pub fn checksum(letters: &[u8]) -> usize {
    letters.iter().fold(0, |sum, letter| add(sum, *letter))
}

// An answer's value; a refusal carries 0.
pub fn value(answer: Result<usize, Refusal>) -> usize {
    answer.unwrap_or(0)
}

// An answer's value, or its refusal's number.
pub fn outcome(answer: Result<usize, Refusal>) -> usize {
    answer.unwrap_or_else(group::refusal_number)
}
