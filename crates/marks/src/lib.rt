// Texts with marks in them: what a program writes stands in one place, as it is read, and the marks say what goes in there. `#` is a number; of
// `{one|another|..}` a number picks one, from 0 on. `<`, `>`, `@` and `=` stand before letters or numbers that the program takes from the
// text, and aren't written.
#![tactic(auto)]

// The value of the hexadecimal digit at an index.
fn digit(letters: &[u8], at: usize) -> Option<u8> {
    let byte = *letters.get(at)?;
    match byte {
        b'0'..=b'9' => Some(byte - b'0'),
        b'a'..=b'f' => Some(byte - b'a' + 10),
        _ => None,
    }
}

// What the one or two digits behind a mark say, as hexadecimal ones; a mark without digits is a zero.
fn value(behind: &[u8]) -> u8 {
    match (digit(behind, 0), digit(behind, 1)) {
        (None, _) => 0,
        (Some(only), None) => only,
        (Some(first), Some(second)) => first % 16 * 16 + second % 16,
    }
}

// The decimal number behind the mark that stands n after the first of its kind; 0 where there is none, as for a mark without digits.
pub fn number(line: &[u8], mark: u8, n: usize) -> usize {
    let mut behind = line.split(|byte| *byte == mark).skip(1);
    let value = usize::from(value(behind.nth(n).unwrap_or(&[])));
    value / 16 * 10 + value % 16
}

// Reads the letters of a line that stand behind a mark, in hexadecimal digits, into the first places of `into`. The answer is how many.
pub fn read(line: &[u8], mark: u8, into: &mut [u8]) -> usize {
    let behind = line.split(|byte| *byte == mark).skip(1);
    let count = into.len().min(lines::count(line, mark));
    for (place, behind) in into.iter_mut().zip(behind) {
        *place = value(behind);
    }
    count
}

// Of a memory, the first letters: as many as a line has marks `<`, or else the number behind `@`.
pub fn handed<'a>(line: &[u8], memory: &'a [u8]) -> &'a [u8] {
    let letters = lines::count(line, b'<');
    if letters == 0 {
        return lines::part(memory, 0, number(line, b'@', 0));
    }
    lines::part(memory, 0, letters)
}

// Whether a byte is a mark.
fn is_mark(byte: &u8) -> bool {
    match *byte {
        b'#' | b'{' | b'|' | b'}' | b'<' | b'>' | b'@' | b'=' => true,
        _ => false,
    }
}

// A part of a line that ends with a mark: what stands before it, and the mark. What stands behind the last one is as if a choice ended there.
fn cut(part: &[u8]) -> (&[u8], u8) {
    match part.split_last() {
        Some((mark, words)) if is_mark(mark) => (words, *mark),
        _ => (part, b'}'),
    }
}

// Writes a line with these numbers, as far as it has places for them; where there is none left, it is 0. A place in a choice has its number whether it
// is picked or not. `away` is how many `|` stand before the words that are picked, and nothing once these are written.
fn say(line: &[u8], numbers: &[usize]) {
    let mut numbers = numbers.iter().copied();
    let mut away = Some(0);
    for part in line.split_inclusive(is_mark) {
        let (words, mark) = cut(part);
        if away == Some(0) {
            lines::say(words);
        }
        match mark {
            b'#' => {
                let number = numbers.next().unwrap_or(0);
                if away == Some(0) {
                    lines::decimal(number);
                }
            }
            b'{' => away = Some(numbers.next().unwrap_or(0)),
            b'|' => away = away.and_then(|away: usize| away.checked_sub(1)),
            _ => away = Some(0),
        }
    }
    lines::say(b"\n");
}

// Writes line n of a text.
pub fn tell(text: &[u8], n: usize, numbers: &[usize]) {
    say(lines::line(text, n), numbers);
}

// Writes a line, in which `=` stands before a number, a second one before its place, and `>` before letters that must come out, and compares; where
// they don't agree it says what came out. The answer is whether they agree.
pub fn compare(line: &[u8], number: usize, place: usize, letters: &[u8]) -> bool {
    say(line, &[]);
    let mut wanted = [0u8; 96];
    let made = read(line, b'>', &mut wanted);
    let came = lines::part(letters, 0, made);
    if number == self::number(line, b'=', 0)
        && place == self::number(line, b'=', 1)
        && came == lines::part(&wanted, 0, made)
    {
        return true;
    }
    lines::number(b"  NOT so: what comes out is ", number);
    lines::number(b" at ", place);
    lines::letters(b" and", came);
    lines::say(b"\n");
    false
}
