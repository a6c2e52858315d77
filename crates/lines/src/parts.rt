// Parts of slices. Where a slice is too short for what is asked, there is nothing to hand back and nothing to write.
ghost use Rattle.std.specs.Prelude.{◌≡◌, length};

// The `count` letters from index `from` on.
pub fn part<'a>(letters: &'a [u8], from: usize, count: usize) -> &'a [u8] {
    letters
        .get(from..)
        .and_then(|rest| rest.get(..count))
        .unwrap_or(&[])
}

// The same, to be written to.
pub fn part_mut<'a>(letters: &'a mut [u8], from: usize, count: usize) -> &'a mut [u8] {
    letters
        .get_mut(from..)
        .and_then(|rest| rest.get_mut(..count))
        .unwrap_or(&mut [])
}

// Writes `run` into `into` from index `at` on, as far as there is room.
pub fn put(into: &mut [u8], at: usize, run: &[u8]) {
    for (place, letter) in into.iter_mut().skip(at).zip(run) {
        *place = *letter;
    }
}

// 0 where two slices are the same, and 1 where they aren't: the number picks one of a text's words.
pub fn differ(a: &[u8], b: &[u8]) -> usize {
    usize::from(a != b)
}

// Line n of a text, from 0 on, without its newline.
pub fn line<'a>(text: &'a [u8], n: usize) -> &'a [u8] {
    text.split(|byte| *byte == b'\n').nth(n).unwrap_or(&[])
}

// How often a byte stands in a slice.
pub fn count(letters: &[u8], byte: u8) -> usize {
    letters.iter().filter(|letter| **letter == byte).count()
}

// The byte at an index; a space behind the end.
pub fn byte(letters: &[u8], at: usize) -> u8 {
    letters.get(at).copied().unwrap_or(b' ')
}

// A number as a letter.
fn letter(number: usize) -> u8 {
    (number % 256) as u8
}

// Writes numbers as letters, as many as there is room for.
pub fn put_numbers(into: &mut [u8], numbers: &[usize]) {
    for (place, number) in into.iter_mut().zip(numbers) {
        *place = letter(*number);
    }
}

// A memory, or the room for a text: as many zeros as are asked for. The stack, which has 8 MiB, has to hold all of a program's.
pub fn room<const N: usize>() -> [u8; N]
    ensures { N ≡ length result }
{
    [0; N]
}
